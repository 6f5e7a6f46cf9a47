//! Making a world in a file, a new one or one of given rows.

ghost use Rattle.std.specs.Prelude.{◌≡◌, ◌<◌, ◌^◌, IfSome, IfErr, false};
ghost use Rattle.sqlite.specs.{Held.{state}, Files.{over_files}, WalFiles.{image_at}};
ghost use Rattle.sqlite_std_file.specs.declared.pair.OpenError.{OpenError};
ghost use Rattle.moo_world.specs.Rows.{IsGood};
ghost use Rattle.moo_store.specs.Loading.{Loads};
ghost use Rattle.moo_files.specs.{Causes.{HasCauseOr, IsDenied, IsOpenable}, Making.{rows_made, Makes, StopsMaking}};
ghost use Rattle.moo_files.specs.Remains.{IfNotOpened, IsCleanRemains};

use crate::connecting::open_new;
use crate::paths::WorldFiles;
use crate::remains::Remains;
use moo_memory::Flat;
use moo_store::{StoreFault, World, create_in, load_in};
use sqlite::{Alter, Connection, FileStore, Start};
use sqlite_disk::Disk;
use std::alloc::Global;

/// Makes the world of these rows, or without any the opening one, in a database that has no tables: as `load_in`, or as `create_in`. The
/// errors are those of `load_in` and `create_in`, each with the connection.
pub fn make_in<S: Alter + Drop>(
    alloc: Global,
    conn: Connection<S>,
    rows: Option<Flat>,
) -> Result<World<S>, (StoreFault, Connection<S>)>
    // The connection is in no transaction.
    requires outside { (state S.Store conn).in_transaction ≡ false }
    // The rows are good: sound rows of a well formed world, and petitions as they may be beside it.
    requires good { IfSome rows (λ r. IsGood r.maps) }
    // The number of the last batch fits a cell, which is a signed number of 64 bits.
    requires limit { IfSome rows (λ r. r.maps.head.seq < 2 ^ 63) }
    // The World has these very rows, each in its printed cells; or the database is as it was, and there is a cause.
    ensures loads { Loads S.Store (rows_made rows) conn result }
{
    match rows {
        Some(rows) => load_in(alloc, conn, rows),
        None => create_in(alloc, conn),
    }
}

/// `make_in` at the store in files, over any disk: a function of its own, since a function with such a call takes long to prove. The errors
/// are those of `load_in` and `create_in`, each with the connection.
pub(crate) fn make_files<D: Disk + Drop>(
    alloc: Global,
    conn: Connection<FileStore<D>>,
    rows: Option<Flat>,
) -> Result<World<FileStore<D>>, (StoreFault, Connection<FileStore<D>>)>
    // The connection is in no transaction.
    requires outside { conn.in_transaction ≡ false }
    // The rows are good: sound rows of a well formed world, and petitions as they may be beside it.
    requires good { IfSome rows (λ r. IsGood r.maps) }
    // The number of the last batch fits a cell, which is a signed number of 64 bits.
    requires limit { IfSome rows (λ r. r.maps.head.seq < 2 ^ 63) }
    // The World has these very rows, each in its printed cells; or the database is as it was, and there is a cause.
    ensures loads { Loads over_files (rows_made rows) conn result }
{
    make_in(alloc, conn, rows)
}

/// Makes the world of these rows, or without any the opening one, in a file that holds no table, or makes the file. A file that it makes,
/// or that held no database, has pages of 1,024 bytes. `T` stands for what the files hold: it is proved for all contents, and no code
/// reads them.
///
/// The rows have to be good, and `seq` below 2^63. They are written in one transaction. Store with `ErrorCode::NameTaken`: the file has a
/// table, an index or a view already, and stays as it is. Store with any other code: the file can't be made or opened, isn't a database, is
/// open elsewhere, or the disk failed. OutOfMemory: memory ran out, and no row was written; files that held no database may hold a blank
/// one. At each refusal what is left of the files is handed back.
pub fn make_from<T: Start, H: WorldFiles<T>>(
    alloc: Global,
    host: &H,
    path: &str,
    start: T,
    rows: Option<Flat>,
) -> Result<World<FileStore<H::Disk>>, (StoreFault, Remains<T, H::Disk>)>
    // The caller may open this path.
    requires may { H.may_open host.now path.now }
    // The rows are good: sound rows of a well formed world, and petitions as they may be beside it.
    requires good { IfSome rows (λ r. IsGood r.maps) }
    // The number of the last batch fits a cell, which is a signed number of 64 bits.
    requires limit { IfSome rows (λ r. r.maps.head.seq < 2 ^ 63) }
    // A World that is made has these very rows, with their numbers. If the disk returned what was written, the files had room for it
    // (nothing, half a first page, or a database without any table), each row is in its printed cells, no other row is in any table, and a
    // crash leaves these. At a fault the store failed or memory ran out; if no file was opened, it is CannotOpen, NotADatabase,
    // DatabaseBusy or OutOfMemory. If the disk returned what was written, files that held anything but nothing or half a first page are
    // spared, sound or not, unless a connection comes back (`Spares`); opened files that held no database hold none still, or one without
    // rows, or that world, whole, in the same cells; and a database is held as it was, or, if it had no table, that world.
    ensures makes { Makes (rows_made rows) (image_at T.Start) result }
    // If the start was spent on files that couldn't be opened, the host said why.
    ensures by_host { IfErr result (λ e. IfNotOpened e.1 ((error : OpenError) × H.refuses host.now path.now error)) }
    // If the disk returned what was written, files that hold nothing or a database are refused only if the name isn't a path, the host
    // denied them, memory ran out, a call of the disk failed, or they are as long as their format allows. Once a connection is open, and if
    // they have room for a world, only if a call of the disk failed, memory ran out, or a row is too big or has no number left.
    ensures cause { IsOpenable (image_at T.Start) →
        IfErr result (λ e. IsCleanRemains e.1 →
        HasCauseOr (StopsMaking (image_at T.Start) e.0) (IsDenied (H.denies host.now) path.now) e.0 e.1) }
{
    let conn = match open_new(alloc, host, path, start) {
        Ok(conn) => conn,
        Err((fault, remains)) => return Err((fault, remains)),
    };
    match make_files(alloc, conn, rows) {
        Ok(world) => Ok(world),
        Err((fault, conn)) => Err((fault, Remains::Connection(conn))),
    }
}
