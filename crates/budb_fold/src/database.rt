//! The database, and what each change makes of it.

ghost use Rattle.std.specs.Prelude.{◌≡◌, Err, OnOk, OnErr};
ghost use Rattle.budb_fold.specs.Database.{is_initial, is_port, is_dump, without, blank, after_change};

use crate::fitting::{any_at_port, is_at_port, is_of_id, may_be_listed};
use bk_text::{Expiry, Host, LevelPath, List, Part, SetName};
use budb_changes::{Change, DumpRecord, PatternBytes};
use dump_levels::{LevelFault, Levels};
use std::alloc::{AllocError, Global};
use volume_sets::{Pattern, SetEntry, Sets, SetsFault};

/// A tape host, and the port offset of its coordinator.
#[derive(Debug, Drop)]
pub struct HostPort {
    /// The host.
    pub host: Host,
    /// The port offset; each has one host.
    pub port: u16,
}

impl Clone for HostPort {
    ghost is_clone = { λ a b. b ≡ a };

    fn clone(&self) -> Result<HostPort, AllocError> {
        Ok(HostPort {
            host: self.host.clone()?,
            port: self.port,
        })
    }
}

/// What the changes of a log make: the sets, levels and tape hosts in the order of adding, and the listed dumps in the
/// order of recording.
#[derive(Debug, Drop)]
pub struct Database {
    /// The volume sets.
    pub sets: Sets,
    /// The dump levels.
    pub levels: Levels,
    /// The tape hosts.
    pub hosts: List<HostPort>,
    /// The greatest id that was begun or recorded; 0 where none was.
    pub greatest: u32,
    /// The listed dumps.
    pub listed: List<DumpRecord>,
}

impl Clone for Database {
    ghost is_clone = { λ a b. b ≡ a };

    fn clone(&self) -> Result<Database, AllocError> {
        Ok(Database {
            sets: self.sets.clone()?,
            levels: self.levels.clone()?,
            hosts: self.hosts.clone()?,
            greatest: self.greatest,
            listed: self.listed.clone()?,
        })
    }
}

/// What a call on the sets answers to whoever asks for memory alone: a refusal counts as done.
fn done_to_sets(answer: Result<(), SetsFault>) -> Result<(), AllocError>
    ensures ok { OnOk result (answer ≡ Err SetsFault.Memory → ⊥) }
    ensures err { OnErr result (answer ≡ Err SetsFault.Memory) }
{
    match answer {
        Err(SetsFault::Memory) => Err(AllocError),
        Ok(()) | Err(_) => Ok(()),
    }
}

/// What a call on the levels answers to whoever asks for memory alone: a refusal counts as done.
fn done_to_levels(answer: Result<(), LevelFault>) -> Result<(), AllocError>
    ensures ok { OnOk result (answer ≡ Err LevelFault.Memory → ⊥) }
    ensures err { OnErr result (answer ≡ Err LevelFault.Memory) }
{
    match answer {
        Err(LevelFault::Memory) => Err(AllocError),
        Ok(()) | Err(_) => Ok(()),
    }
}

/// Drops the tape host of a port offset.
fn drop_host(hosts: &mut List<HostPort>, port: u16)
    ensures { hosts.new ≡ without (is_port port) hosts.old }
{
    hosts.retain(|host| !is_at_port(host, port));
}

/// Whether a dump has this initial id.
fn is_of_initial(dump: &DumpRecord, initial: u32) -> bool
    ensures { result ≡ is_initial initial dump.now }
{
    dump.fields().initial == initial
}

/// Drops each dump of an initial id.
fn drop_set(listed: &mut List<DumpRecord>, initial: u32)
    ensures { listed.new ≡ without (is_initial initial) listed.old }
{
    listed.retain(|dump| !is_of_initial(dump, initial));
}

/// Drops the dump of an id.
fn drop_dump(listed: &mut List<DumpRecord>, id: u32)
    ensures { listed.new ≡ without (is_dump id) listed.old }
{
    listed.retain(|dump| !is_of_id(dump, id));
}

impl Database {
    /// Nothing is there, and no id was begun. It takes no memory.
    pub fn new(alloc: Global) -> Database
        ensures { result ≡ blank }
    {
        Database {
            sets: Sets::new(alloc),
            levels: Levels::new(alloc),
            hosts: List::new(alloc),
            greatest: 0,
            listed: List::new(alloc),
        }
    }

    /// Makes a change. One that doesn't fit changes nothing: it adds what is there, removes or names what isn't, has a
    /// pattern that is none, adds a level whose level above isn't there, or a record whose id is 0, whose parent isn't
    /// below its id, or that has neither a parent nor whole volumes alone. Where memory is refused nothing has changed.
    pub fn make(&mut self, change: Change) -> Result<(), AllocError>
        ensures ok { OnOk result (self.new ≡ after_change change self.old) }
        ensures err { OnErr result (self.new ≡ self.old) }
    {
        match change {
            Change::AddSet { set } => self.add_set(set),
            Change::DelSet { set } => {
                self.del_set(&set);
                Ok(())
            }
            Change::AddEntry {
                set,
                server,
                partition,
                pattern,
            } => self.add_entry(&set, server, partition, &pattern),
            Change::DelEntry { set, number } => {
                self.del_entry(&set, number);
                Ok(())
            }
            Change::AddLevel { level, expiry } => self.add_level(level, expiry),
            Change::SetExpiry { level, expiry } => {
                self.set_expiry(&level, expiry);
                Ok(())
            }
            Change::DelLevel { level } => {
                self.del_level(&level);
                Ok(())
            }
            Change::AddHost { host, port } => self.add_host(host, port),
            Change::DelHost { port } => {
                self.del_host(port);
                Ok(())
            }
            Change::Begin { id } => {
                self.begin(id);
                Ok(())
            }
            Change::Take { initial } => {
                self.take(initial);
                Ok(())
            }
            Change::Done1(dump) | Change::Found1(dump) => self.list(dump.into_record()),
            Change::Done(dump) | Change::Found(dump) => self.list(dump),
            Change::Forget { id } => {
                self.forget(id);
                Ok(())
            }
        }
    }

    /// A set, last.
    fn add_set(&mut self, set: SetName) -> Result<(), AllocError>
        ensures ok { OnOk result (self.new ≡ after_change (Change.AddSet set) self.old) }
        ensures err { OnErr result (self.new ≡ self.old) }
    {
        done_to_sets(self.sets.add(set))
    }

    /// A set goes.
    fn del_set(&mut self, set: &SetName)
        ensures { self.new ≡ after_change (Change.DelSet set.now) self.old }
    {
        let _answer = self.sets.remove(set);
    }

    /// An entry of a set, last.
    fn add_entry(
        &mut self,
        set: &SetName,
        server: Option<Host>,
        partition: Option<Part>,
        pattern: &PatternBytes,
    ) -> Result<(), AllocError>
        ensures ok { OnOk result (self.new ≡ after_change (Change.AddEntry set.now server partition pattern.now) self.old) }
        ensures err { OnErr result (self.new ≡ self.old) }
    {
        if !Pattern::is_pattern(pattern.bytes()) {
            return Ok(());
        }
        let pattern = Pattern::from_bytes(self.sets.allocator(), pattern.bytes())?;
        done_to_sets(
            self.sets.add_entry(
                set,
                SetEntry {
                    server,
                    partition,
                    pattern,
                },
            ),
        )
    }

    /// An entry of a set goes, by its number from 1 on; later entries close up.
    fn del_entry(&mut self, set: &SetName, number: u32)
        ensures { self.new ≡ after_change (Change.DelEntry set.now number) self.old }
    {
        let _answer = self.sets.remove_entry(set, number);
    }

    /// A level, last.
    fn add_level(&mut self, level: LevelPath, expiry: Expiry) -> Result<(), AllocError>
        ensures ok { OnOk result (self.new ≡ after_change (Change.AddLevel level expiry) self.old) }
        ensures err { OnErr result (self.new ≡ self.old) }
    {
        done_to_levels(self.levels.add(level, expiry))
    }

    /// A level gets another expiration.
    fn set_expiry(&mut self, level: &LevelPath, expiry: Expiry)
        ensures { self.new ≡ after_change (Change.SetExpiry level.now expiry) self.old }
    {
        let _answer = self.levels.set_expiry(level, expiry);
    }

    /// A level goes, and all below it.
    fn del_level(&mut self, level: &LevelPath)
        ensures { self.new ≡ after_change (Change.DelLevel level.now) self.old }
    {
        let _answer = self.levels.remove(level);
    }

    /// A tape host, last.
    fn add_host(&mut self, host: Host, port: u16) -> Result<(), AllocError>
        ensures ok { OnOk result (self.new ≡ after_change (Change.AddHost host port) self.old) }
        ensures err { OnErr result (self.new ≡ self.old) }
    {
        if any_at_port(self.hosts.as_slice(), port) {
            return Ok(());
        }
        self.hosts.push(HostPort { host, port })
    }

    /// A tape host goes.
    fn del_host(&mut self, port: u16)
        ensures { self.new ≡ after_change (Change.DelHost port) self.old }
    {
        drop_host(&mut self.hosts, port);
    }

    /// A dump was begun.
    fn begin(&mut self, id: u32)
        ensures { self.new ≡ after_change (Change.Begin id) self.old }
    {
        self.greatest = self.greatest.max(id);
    }

    /// A tape of an initial dump was taken: each listed dump of that initial id is forgotten.
    fn take(&mut self, initial: u32)
        ensures { self.new ≡ after_change (Change.Take initial) self.old }
    {
        drop_set(&mut self.listed, initial);
    }

    /// A dump is listed, last, and its id counts as begun.
    fn list(&mut self, dump: DumpRecord) -> Result<(), AllocError>
        ensures done1 { OnOk result (self.new ≡ after_change (Change.Done1 dump) self.old) }
        ensures found1 { OnOk result (self.new ≡ after_change (Change.Found1 dump) self.old) }
        ensures done { OnOk result (self.new ≡ after_change (Change.Done dump) self.old) }
        ensures found { OnOk result (self.new ≡ after_change (Change.Found dump) self.old) }
        ensures err { OnErr result (self.new ≡ self.old) }
    {
        if !may_be_listed(dump.fields(), self.listed.as_slice()) {
            return Ok(());
        }
        let id = dump.fields().id;
        self.listed.push(dump)?;
        self.begin(id);
        Ok(())
    }

    /// A listed dump is forgotten.
    fn forget(&mut self, id: u32)
        ensures { self.new ≡ after_change (Change.Forget id) self.old }
    {
        drop_dump(&mut self.listed, id);
    }
}
