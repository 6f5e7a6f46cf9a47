//! A stop at each call of one file and then of the other.

use crate::files::{Loss, Which};
use crate::rounds::{Counts, Run, each_round, files_after, making, run_on};
use std::alloc::Global;
use std::process::Abort;
use std::test::Fail;
use test_visits::Task;

/// `#4` defines a, `#5` under it defines b, which `#6` under that one sets; `#7` defines c.
pub(crate) const TREE: &str = r#"batch as #3
create(#1)
add_property(#4, "a", 10, {#3, "r"})
create(#4)
add_property(#5, "b", 20, {#3, "r"})
create(#5)
set(#6, "b", 21)
create(#1)
add_property(#7, "c", 30, {#3, "r"})
end
"#;

/// The text of the tree, and of forty children of `#6`, the last of them `#47`.
fn forty(alloc: Global) -> Result<Vec<u8>, Fail> {
    let mut text = Vec::new(alloc);
    text.extend_from_slice(TREE.as_bytes())?;
    text.extend_from_slice(b"batch as #3\n")?;
    for _ in 0..40u32 {
        text.extend_from_slice(b"create(#6)\n")?;
    }
    text.extend_from_slice(b"end\n")?;
    Ok(text)
}

/// How many slots of a property a dump has.
fn slots_of(dump: &[u8], name: &str) -> Result<u32, Fail> {
    let mut count: u32 = 0;
    for line in str::from_utf8(dump)?.lines() {
        if line.starts_with("slot {") && line.contains(name) {
            count = count.saturating_add(1);
        }
    }
    Ok(count)
}

/// How many slots of a, b and c a dump has.
fn slots(dump: &[u8]) -> Result<(u32, u32, u32), Fail> {
    Ok((
        slots_of(dump, "\"a\"")?,
        slots_of(dump, "\"b\"")?,
        slots_of(dump, "\"c\"")?,
    ))
}

/// Every stop of a run, at each file and with each loss.
fn all_rounds(alloc: Global, run: &Run<'_>) -> Result<Counts, Fail> {
    let mut all = Counts::new();
    for which in [Which::Log, Which::Db] {
        all.add(&each_round(alloc, run, which, Loss::Unsynced)?);
        all.add(&each_round(alloc, run, which, Loss::Nothing)?);
    }
    Ok(all)
}

/// Whether every round left the world before or the world after, both of them at some stop.
fn are_right(counts: &Counts) -> bool {
    counts.wrong == 0 && counts.ended == 4 && counts.old > 0 && counts.new > 0
}

/// Tests the stops of a text on the world after another one: after each the world before it is there or the world after it, both of them
/// at some stop. The text is answered by the reply, and the two worlds are handed back.
fn test_text<'a>(
    rt: &impl Abort,
    alloc: Global,
    before: &[u8],
    text: &'a [u8],
    reply: &'a [u8],
) -> Result<Run<'a>, Fail> {
    let run = run_on(alloc, files_after(alloc, before)?, Task::Apply(text), reply)?;
    test_counts(rt, all_rounds(alloc, &run)?);
    Ok(run)
}

/// Tests that every round left the world before or the world after, both of them at some stop.
fn test_counts(rt: &impl Abort, counts: Counts) {
    assert!(rt; are_right(&counts), "{counts:?}");
}

/// The stops of a batch on a new world.
#[test]
fn a_batch_that_stops_is_there_or_not(rt: HostRuntime) -> Result<(), Fail> {
    let text = b"batch as #3\ncreate(#1)\nend\n";
    test_text(&rt, rt.alloc(), b"", text, b"accepted 1\n#4\nend\n")?;
    Ok(())
}

/// Tests how many slots of a, b and c the worlds before and after a run have.
fn test_slots(
    rt: &impl Abort,
    run: &Run<'_>,
    old: (u32, u32, u32),
    new: (u32, u32, u32),
) -> Result<(), Fail> {
    assert!(rt; slots(&run.old)? == old && slots(&run.new)? == new);
    Ok(())
}

/// The stops of a batch by which 42 objects lose a slot and get another one: after each, all of them have, or none.
#[test]
fn a_change_of_parent_that_stops_is_there_or_not(rt: HostRuntime) -> Result<(), Fail> {
    let text = b"batch as #3\nchparent(#5, #7)\nget(#47, \"b\")\nend\n";
    let before = forty(rt.alloc())?;
    let run = test_text(&rt, rt.alloc(), &before, text, b"accepted 3\n0\n21\nend\n")?;
    test_slots(&rt, &run, (43, 42, 1), (1, 42, 43))
}

/// The stops of a batch by which an object goes, and its property with the slots of 42 objects.
#[test]
fn a_recycling_that_stops_is_there_or_not(rt: HostRuntime) -> Result<(), Fail> {
    let text = b"batch as #3\nrecycle(#5)\nend\n";
    let before = forty(rt.alloc())?;
    let run = test_text(&rt, rt.alloc(), &before, text, b"accepted 3\n0\nend\n")?;
    test_slots(&rt, &run, (43, 42, 1), (42, 0, 1))
}

/// `#4` asks for an object of its own, and to be a player.
const ASKED: &str = r#"batch as #3
create(#1, #-1)
end
batch as #4
petition({{"create", #1, #4}, {"set_player_flag", #4, 1}})
end
"#;

/// Whether a dump has these words.
fn has_words(dump: &[u8], words: &str) -> Result<bool, Fail> {
    Ok(str::from_utf8(dump)?.contains(words))
}

/// The stops of a batch that grants a petition: after each, all of its calls are made and it is gone, or none is and it is still there.
#[test]
fn a_grant_that_stops_is_there_or_not(rt: HostRuntime) -> Result<(), Fail> {
    let text = b"batch as #3\ngrant(1)\nget(#5, \"owner\")\nis_player(#4)\npetitions()\nend\n";
    let reply = b"accepted 3\n0\n#4\n1\n{}\nend\n";
    let run = test_text(&rt, rt.alloc(), ASKED.as_bytes(), text, reply)?;
    assert!(rt; has_words(&run.old, "petition {1, #4")? && !has_words(&run.new, "petition {")?);
    Ok(())
}

/// The stops of a check, which changes nothing.
#[test]
fn a_check_that_stops_changes_nothing(rt: HostRuntime) -> Result<(), Fail> {
    let alloc = rt.alloc();
    let kept = files_after(alloc, TREE.as_bytes())?;
    let run = run_on(alloc, kept, Task::Check, b"")?;
    assert!(rt; run.old == run.new);
    let counts = all_rounds(alloc, &run)?;
    assert!(rt;
        counts.wrong == 0 && counts.ended == 4 && counts.new > 0,
        "{counts:?}"
    );
    Ok(())
}

/// The stops of the making of a world: after each the new world is there, or none and one can be made.
#[test]
fn a_new_world_that_stops_is_there_or_can_be_made(rt: HostRuntime) -> Result<(), Fail> {
    let run = making(rt.alloc())?;
    test_counts(&rt, all_rounds(rt.alloc(), &run)?);
    Ok(())
}
