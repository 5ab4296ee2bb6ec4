//! Which lines are tasks.
use benchcases::case::{Call, Case, Choice, Collection, Pieces, Size, Use};
use benchcases::lines::{Mode, Task, task_of};

#[test]
fn a_line_is_a_task_or_nothing(rt: HostRuntime) {
    let (name, case, count) = ("push", Case::Sized(Call::Push, Size::Four), 10);
    for (line, mode) in [
        ("push 10", Mode::Time(1)),
        ("push 10 3", Mode::Time(3)),
        ("check push 10", Mode::Check),
        ("setup push 10", Mode::Setup),
    ] {
        assert!(rt;
            task_of(line)
                == Some(Task {
                    mode,
                    name,
                    case,
                    count
                }),
            "{line}"
        );
    }
    for line in [
        "push",
        "push 0",
        "push 10 0",
        "push 10 3 1",
        "check push 10 3",
        "shove 10",
        "push 4294967296",
        "check push_pop_u8 5",
        "check push_ 5",
    ] {
        assert!(rt; task_of(line) == None, "{line}");
    }
}

#[test]
fn a_name_may_have_a_size(rt: HostRuntime) {
    for (name, case) in [
        ("insert_pop_u8", Case::Sized(Call::InsertPop, Size::One)),
        (
            "remove_push_24",
            Case::Sized(Call::RemovePush, Size::TwentyFour),
        ),
        ("clone_zst", Case::Sized(Call::Clone, Size::Zero)),
        ("splice_front", Case::SpliceFront),
        ("cmp_bytes", Case::CmpBytes),
        ("dedup_by_key", Case::Chosen(Choice::DedupByKey)),
        ("pieces_of_4", Case::Pieces(Pieces::OfFour)),
        ("table_hit", Case::Held(Collection::TableHit)),
        ("table_iter", Case::Held(Collection::TableIter)),
        ("box_tree_find", Case::Held(Collection::BoxTreeFind)),
        ("map_scan", Case::Held(Collection::MapScan)),
        ("slots_churn", Case::Held(Collection::SlotsChurn)),
        ("text_table", Case::Used(Use::TextTable)),
        ("rows", Case::Used(Use::Rows)),
    ] {
        assert!(rt; Case::from_name(name) == Some(case), "{name}");
    }
}
