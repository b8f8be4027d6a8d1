//! Publishing one version.
ghost use Rattle.std.specs.Prelude.{◌≡◌, ◌∷◌, [], length, drop, true, false, IfOk, IfErr};
ghost use Rattle.left_right.specs.Sides.{view};
ghost use Rattle.eco_shared.specs.Sharing.{shown_state, GoesOn};

use crate::rule::{Merging, TheWriter};
use crate::shown::Shown;
use core::mem::replace_with;
use std::alloc::AllocError;
use std::snapshot::Snapshot;
use std::sync::Wait;

// Publishes the one operation that is pending.
fn publish<R: Wait>(
    rt: &R,
    writer: TheWriter,
    op: Snapshot<Shown>,
) -> (TheWriter, Result<(), AllocError>)
    requires pending { drop writer.behind writer.log.items ≡ op.value ∷ [] }
    requires goes { GoesOn writer.desk.shown.value op.value }
    ensures ok { IfOk result.1 (λ _. (drop result.0.behind result.0.log.items ≡ [])
        × (shown_state result.0.desk.shown.value ≡ shown_state op.value)) }
    ensures err { IfErr result.1 (λ _. (result.0.desk.shown.value ≡ writer.desk.shown.value)
        × (drop result.0.behind result.0.log.items ≡ op.value ∷ [])) }
    ensures same { view result.0.desk.place ≡ view writer.desk.place }
{
    let _ = op;
    writer.publish_as::<Merging, R>(rt)
}

/// The same, in place.
pub fn publish_in<R: Wait>(
    rt: &R,
    writer: &mut TheWriter,
    op: Snapshot<Shown>,
) -> Result<(), AllocError>
    requires pending { drop writer.old.behind writer.old.log.items ≡ op.value ∷ [] }
    requires goes { GoesOn writer.old.desk.shown.value op.value }
    ensures ok { IfOk result (λ _. (drop writer.new.behind writer.new.log.items ≡ [])
        × (shown_state writer.new.desk.shown.value ≡ shown_state op.value)) }
    ensures err { IfErr result (λ _. (writer.new.desk.shown.value ≡ writer.old.desk.shown.value)
        × (drop writer.new.behind writer.new.log.items ≡ op.value ∷ [])) }
    ensures same { view writer.new.desk.place ≡ view writer.old.desk.place }
{
    replace_with(
        writer,
        op,
        |w: TheWriter, x: Snapshot<Shown>| -> (TheWriter, Result<(), AllocError>)
            requires pending { drop w.behind w.log.items ≡ x.value ∷ [] }
            requires goes { GoesOn w.desk.shown.value x.value }
            ensures ok { IfOk result.1 (λ _. (drop result.0.behind result.0.log.items ≡ [])
                × (shown_state result.0.desk.shown.value ≡ shown_state x.value)) }
            ensures err { IfErr result.1 (λ _. (result.0.desk.shown.value ≡ w.desk.shown.value)
                × (drop result.0.behind result.0.log.items ≡ x.value ∷ [])) }
            ensures same { view result.0.desk.place ≡ view w.desk.place }
        { publish(rt, w, x) },
    )
}

/// Makes this the one operation that is pending, where there is room for it.
pub fn makes_pending(writer: &mut TheWriter, op: Shown) -> bool
    requires { length (drop writer.old.behind writer.old.log.items) ≡ 0 }
    ensures desk { writer.new.desk ≡ writer.old.desk }
    ensures pending { result ≡ true → drop writer.new.behind writer.new.log.items ≡ op ∷ [] }
    ensures none { result ≡ false → length (drop writer.new.behind writer.new.log.items) ≡ 0 }
{
    writer.append(op).is_ok()
}
