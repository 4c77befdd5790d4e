//! What each command on the database decides. A further one is one more arm here, and one more row of the definition.

ghost use Rattle.std.specs.Prelude.{◌≡◌, IfOk};
ghost use Rattle.budb_fold.specs.Chains.{HaveParentsBelow};
ghost use Rattle.backup_session.specs.Verdicts.{verdict};

use crate::dumps::{delete_dump, show_dumps, show_history};
use crate::hosts::{add_host, drop_host, show_hosts};
use crate::levels::{add_levels, drop_level, set_expiries, show_levels};
use crate::sets::{add_entry, add_set, drop_entry, drop_set, show_sets};
use crate::verdict::Verdict;
use crate::verifying::show_verified;
use backup_words::DatabaseCommand;
use budb::Budb;
use std::alloc::{AllocError, Global};

/// What a command on the database decides. Each parent should lie below its dump, as in each database of a log.
pub(crate) fn decide(
    alloc: Global,
    budb: &Budb,
    command: &DatabaseCommand,
) -> Result<Verdict, AllocError>
    ensures { HaveParentsBelow budb.now.database.listed → IfOk result (λ v. v ≡ verdict budb.now.database command.now) }
{
    let database = budb.database();
    match command {
        DatabaseCommand::Addvolset { name } => add_set(alloc, &database.sets, name),
        DatabaseCommand::Delvolset { name } => drop_set(alloc, &database.sets, name),
        DatabaseCommand::Addvolentry {
            name,
            server,
            partition,
            volumes,
        } => add_entry(alloc, &database.sets, name, server, partition, volumes),
        DatabaseCommand::Delvolentry { name, entry } => {
            drop_entry(alloc, &database.sets, name, *entry)
        }
        DatabaseCommand::Listvolsets { name } => show_sets(alloc, &database.sets, name),
        DatabaseCommand::Adddump { dump, expires } => {
            add_levels(alloc, &database.levels, dump.as_slice(), *expires)
        }
        DatabaseCommand::Setexp { dump, expires } => {
            set_expiries(alloc, &database.levels, dump.as_slice(), *expires)
        }
        DatabaseCommand::Deldump { dump } => drop_level(alloc, &database.levels, dump),
        DatabaseCommand::Listdumps => show_levels(alloc, &database.levels),
        DatabaseCommand::Listhosts => show_hosts(alloc, database.hosts.as_slice()),
        DatabaseCommand::Addhost {
            tapehost,
            portoffset,
        } => add_host(alloc, database.hosts.as_slice(), tapehost, *portoffset),
        DatabaseCommand::Delhost {
            tapehost,
            portoffset,
        } => drop_host(alloc, database.hosts.as_slice(), tapehost, *portoffset),
        DatabaseCommand::Checkpoint => Ok(Verdict::Shortens),
        DatabaseCommand::Deletedump { dumpid } => delete_dump(alloc, budb, *dumpid),
        DatabaseCommand::Dumpinfo { ndumps, id } => show_dumps(alloc, budb, *ndumps, *id),
        DatabaseCommand::Volinfo { volume } => show_history(alloc, budb, volume),
        DatabaseCommand::Dbverify => show_verified(alloc, budb),
    }
}
