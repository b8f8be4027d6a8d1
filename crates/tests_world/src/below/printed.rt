//! Printed texts.
use eco_ids::entity::{CHILD_OF, PANIC, WITH};
use eco_ids::{Entity, Id, Part, Pattern, Refusal, Value};
use std::alloc::{AllocError, Global};
use std::fmt::Display;

const ANN: Entity = Entity {
    index: 9,
    generation: 0,
};

const LAST: Entity = Entity {
    index: 4_294_967_295,
    generation: 65_535,
};

const WIDE: Value = Value([3, -4, i64::MAX, i64::MIN, 0, 6, -7, 8]);

// The items as they print, each on a line of its own.
fn push_lines<T: Display>(text: &mut String, items: &[T]) -> Result<(), AllocError> {
    for item in items {
        write!(text, "{item}\n")?;
    }
    Ok(())
}

// Whether the items print so.
fn are_printed<T: Display>(alloc: Global, items: &[T], expected: &str) -> bool {
    let mut text = String::new(alloc);
    push_lines(&mut text, items).is_ok() && text.as_str() == expected
}

#[test]
fn handles_ids_and_patterns(rt: HostRuntime) {
    assert!(rt; are_printed(rt.alloc(), &[ANN, LAST], "#9.0\n#4294967295.65535\n"));
    assert!(rt;
        are_printed(
            rt.alloc(),
            &[Id::One(PANIC), Id::Two(CHILD_OF, ANN)],
            "#8.0\n(#0.0, #9.0)\n"
        )
    );
    assert!(rt;
        are_printed(
            rt.alloc(),
            &[
                Pattern::One(ANN),
                Pattern::Two(Part::Is(ANN), Part::Each),
                Pattern::Two(Part::Any, Part::Is(WITH)),
            ],
            "#9.0\n(#9.0, *)\n(_, #3.0)\n"
        )
    );
}

#[test]
fn values(rt: HostRuntime) {
    assert!(rt;
        are_printed(
            rt.alloc(),
            &[
                WIDE.fields(1),
                WIDE.fields(2),
                WIDE.fields(4),
                WIDE.fields(9),
            ],
            "3\n3 -4\n3 -4 9223372036854775807 -9223372036854775808\n\
         3 -4 9223372036854775807 -9223372036854775808 0 6 -7 8\n"
        )
    );
}

#[test]
fn refusals(rt: HostRuntime) {
    assert!(rt;
        are_printed(
            rt.alloc(),
            &[
                Refusal::NotAlive,
                Refusal::DeadId,
                Refusal::Reserved,
                Refusal::NotAPolicy,
                Refusal::InUse,
                Refusal::Cycle { relationship: ANN },
                Refusal::Panic {
                    holder: LAST,
                    member: ANN,
                },
                Refusal::NotData,
                Refusal::TooWide,
                Refusal::NameTaken,
                Refusal::BadName,
                Refusal::NoMoreIds,
                Refusal::Taken,
                Refusal::OutOfMemory,
                Refusal::Syntax { at: 9 },
                Refusal::UnknownName { at: 10 },
                Refusal::WildcardHere,
                Refusal::TooManyTerms,
                Refusal::NoPositive,
                Refusal::NoSuchQuery,
                Refusal::Undeclared,
                Refusal::BadTerm,
                Refusal::SystemNameTaken,
                Refusal::TraitClash,
            ],
            "1 NotAlive\n2 DeadId\n3 Reserved\n4 NotAPolicy\n5 InUse\n6 Cycle #9.0\n7 Panic #4294967295.65535 #9.0\n\
         8 NotData\n9 TooWide\n10 NameTaken\n11 BadName\n12 NoMoreIds\n13 Taken\n14 OutOfMemory\n20 Syntax 9\n\
         21 UnknownName 10\n22 WildcardHere\n23 TooManyTerms\n24 NoPositive\n25 NoSuchQuery\n30 Undeclared\n31 BadTerm\n\
         32 SystemNameTaken\n33 TraitClash\n"
        )
    );
}
