//! A file of the first version that is opened, with a stop at each call of one file and then of the other.

use crate::files::{Kept, Loss, Which, files_after_loss, stopping_files};
use crate::rounds::{do_without_stop, files_after, tables_of};
use crate::stops::TREE;
use std::alloc::Global;
use std::test::Fail;
use test_visits::{Seen, Task, visit_fused};

/// The tables of the first version, and in them the rows of the tree.
const FIRST: &str = r#"
CREATE TABLE head (id INTEGER NOT NULL PRIMARY KEY, version INTEGER NOT NULL, seq INTEGER NOT NULL, top INTEGER NOT NULL, next_prop INTEGER NOT NULL, next_verb INTEGER NOT NULL) STRICT;
CREATE TABLE object (n INTEGER NOT NULL PRIMARY KEY, name TEXT NOT NULL, owner INTEGER NOT NULL, parent INTEGER NOT NULL, location INTEGER NOT NULL, player INTEGER NOT NULL, programmer INTEGER NOT NULL, wizard INTEGER NOT NULL, r INTEGER NOT NULL, w INTEGER NOT NULL, f INTEGER NOT NULL, accept TEXT NOT NULL) STRICT;
CREATE TABLE prop (id INTEGER NOT NULL PRIMARY KEY, definer INTEGER NOT NULL, name TEXT NOT NULL) STRICT;
CREATE TABLE slot (object INTEGER NOT NULL, prop INTEGER NOT NULL, owner INTEGER NOT NULL, bits TEXT NOT NULL, value TEXT NOT NULL, PRIMARY KEY (object, prop)) STRICT;
CREATE TABLE verb (object INTEGER NOT NULL, id INTEGER NOT NULL, names TEXT NOT NULL, owner INTEGER NOT NULL, bits TEXT NOT NULL, dobj TEXT NOT NULL, prep TEXT NOT NULL, iobj TEXT NOT NULL, PRIMARY KEY (object, id)) STRICT;
INSERT INTO head VALUES (1, 1, 1, 7, 4, 1);
INSERT INTO object VALUES (0, 'System Object', 3, 1, -1, 0, 0, 0, 0, 0, 0, '');
INSERT INTO object VALUES (1, 'Root Class', 3, -1, -1, 0, 0, 0, 0, 0, 1, '');
INSERT INTO object VALUES (2, 'The First Room', 3, 1, -1, 0, 0, 0, 0, 0, 0, '{#1}');
INSERT INTO object VALUES (3, 'Wizard', 3, 1, 2, 1, 1, 1, 0, 0, 0, '');
INSERT INTO object VALUES (4, '', 3, 1, -1, 0, 0, 0, 0, 0, 0, '');
INSERT INTO object VALUES (5, '', 3, 4, -1, 0, 0, 0, 0, 0, 0, '');
INSERT INTO object VALUES (6, '', 3, 5, -1, 0, 0, 0, 0, 0, 0, '');
INSERT INTO object VALUES (7, '', 3, 1, -1, 0, 0, 0, 0, 0, 0, '');
INSERT INTO prop VALUES (1, 4, 'a');
INSERT INTO prop VALUES (2, 5, 'b');
INSERT INTO prop VALUES (3, 7, 'c');
INSERT INTO slot VALUES (4, 1, 3, 'r', '10');
INSERT INTO slot VALUES (5, 1, 3, 'r', '');
INSERT INTO slot VALUES (5, 2, 3, 'r', '20');
INSERT INTO slot VALUES (6, 1, 3, 'r', '');
INSERT INTO slot VALUES (6, 2, 3, 'r', '21');
INSERT INTO slot VALUES (7, 3, 3, 'r', '30');
"#;

/// A file of the first version, and what a look at it shows: how many tables there are, before a migration and after one, and the world.
#[derive(Clone, Copy, Drop)]
struct Migration<'a> {
    kept: &'a Kept,
    earlier: &'a [u8],
    present: &'a [u8],
    dump: &'a [u8],
}

/// What the stops left, and how many left it.
#[derive(Clone, Copy, Debug, Drop)]
struct Found {
    /// The tables of the first version, and the world.
    earlier: u32,
    /// Those of the present one, and the world.
    present: u32,
    /// Anything else.
    wrong: u32,
}

impl Found {
    /// Counts one stop, by how many tables it left and whether they held the world.
    fn note(&mut self, migration: &Migration<'_>, tables: &[u8], is_same: bool) {
        let count = if is_same && tables == migration.earlier {
            &mut self.earlier
        } else if is_same && tables == migration.present {
            &mut self.present
        } else {
            &mut self.wrong
        };
        *count = count.saturating_add(1);
    }
}

/// One round: the file is opened and checked while one of its two files stops after so many calls, and is then opened again and looked at.
/// Whether the round ended without a stop.
fn one_round(
    alloc: Global,
    migration: &Migration<'_>,
    (which, loss): (Which, Loss),
    calls: u64,
    found: &mut Found,
) -> Result<bool, Fail> {
    let mut seen = Seen::new(alloc);
    let files = stopping_files(alloc, migration.kept, which, calls)?;
    let files = files_after_loss(
        alloc,
        visit_fused(alloc, files, Task::Check, &mut seen),
        loss,
    )?;
    let mut tables = Seen::new(alloc);
    let files = visit_fused(alloc, files, Task::Tables, &mut tables);
    let mut look = Seen::new(alloc);
    let _files = visit_fused(alloc, files, Task::Look, &mut look);
    let is_same = look.is_done && look.written.as_slice() == migration.dump;
    found.note(migration, &tables.written, is_same);
    Ok(seen.is_done && seen.is_closed)
}

/// The rounds of one file and one loss, until one ends without a stop.
fn each_round(
    alloc: Global,
    migration: &Migration<'_>,
    how: (Which, Loss),
    found: &mut Found,
) -> Result<(), Fail> {
    for calls in 0..2000 {
        if one_round(alloc, migration, how, calls, found)? {
            return Ok(());
        }
    }
    Err(Fail::from("no round ended without a stop"))
}

/// The rounds of both files and both losses.
fn all_rounds(alloc: Global, migration: &Migration<'_>, found: &mut Found) -> Result<(), Fail> {
    for which in [Which::Log, Which::Db] {
        each_round(alloc, migration, (which, Loss::Unsynced), found)?;
        each_round(alloc, migration, (which, Loss::Nothing), found)?;
    }
    Ok(())
}

/// The stops of an opening that migrates a file: after each the world is there, in the tables of the first version or of the present one.
#[test]
fn a_migration_that_stops_left_the_world(rt: HostRuntime) -> Result<(), Fail> {
    let alloc = rt.alloc();
    let kept = tables_of(alloc, FIRST)?;
    let world = files_after(alloc, TREE.as_bytes())?;
    let (earlier, _) = do_without_stop(alloc, &kept, Task::Tables)?;
    let (present, _) = do_without_stop(alloc, &world, Task::Tables)?;
    let (dump, _) = do_without_stop(alloc, &world, Task::Look)?;
    let migration = Migration {
        kept: &kept,
        earlier: &earlier,
        present: &present,
        dump: &dump,
    };
    let mut found = Found {
        earlier: 0,
        present: 0,
        wrong: 0,
    };
    all_rounds(alloc, &migration, &mut found)?;
    assert!(rt;
        earlier != present && found.wrong == 0 && found.earlier > 0 && found.present > 4,
        "{found:?}"
    );
    Ok(())
}
