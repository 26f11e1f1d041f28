//! What a command runs on.
ghost use Rattle.std.specs.Prelude.{◌≡◌, ◌≢◌, ◌||◌, ◌==◌, ◌∷◌, [], ℕ, List, None, Option, false};
ghost use Rattle.std.specs.Prelude.{IfErr, IfOk, IfSome, map, option_map, ⊤};
ghost use Rattle.std.specs.Duration.{as_nanos};
ghost use Rattle.std.specs.IoError.{error_kind};
ghost use Rattle.dispatch_room_exit.specs.declared.exit_status.Failure.TheVariants as failure;
ghost use Rattle.dispatch_room_disk.specs.FileSteps.{Does};
ghost use Rattle.dispatch_room_disk.specs.ReplacingSteps.{Step};
ghost use Rattle.dispatch_room_disk.specs.RoomFiles.{Closes, IsConnected, IsUnfound, place_of};
ghost use Rattle.dispatch_room_journal.specs.ReadSteps.{ends_well, most_rows};
ghost use Rattle.dispatch_room_tcp.specs.HeardRooms.{IsHeard};
ghost use Rattle.dispatch_room_tcp.specs.Hosts as effect;
ghost use Rattle.dispatch_room_tcp.specs.Hosts.{Effect, IsUnlisted, IsUnread, known, tables_of};

use dispatch_room_disk::restored_files::Replacing;
use dispatch_room_disk::room_files::{self, RoomFile};
use dispatch_room_disk::systems::System;
use dispatch_room_exit::exit_status::Failure;
use dispatch_room_exit::failure_causes::Explainer;
use dispatch_room_journal::list_source::ListSource;
use dispatch_room_serving::change_marks::ListOnDisk;
use dispatch_room_serving::journal_files::{self, Lasting, OpenedList};
use dispatch_room_serving::list_places::Placed;
use dispatch_room_sockets::client;
use dispatch_room_sockets::socket_readers::SocketReader;
use dispatch_room_sockets::socket_writers::SocketWriter;
use dispatch_room_tasks::opened_room::TaskResult;
use room_http_messages::sinks::Sink;
use room_http_messages::sources::Source;
use room_http_messages::standard_wires::Wire;
use sqlite::{Connection, File as DiskFile, FileStore};
use std::alloc::Global;
use std::fs::{self, File};
use std::io::{self, ErrorKind, IsTerminal, Stdin};
use std::net::TcpStream;
use std::random::RandomSource;
use std::time::Duration;

type CallReader<'a> = SocketReader<'a, TcpStream, HostRuntime>;

type CallWriter<'a> = SocketWriter<'a, TcpStream, HostRuntime>;

/// The machine that a command runs on, with its files, its addresses and its chance. Each call adds
/// one effect to what was done, with what came of it: so a contract that says what was done says what
/// a command read, and that it did nothing else. Only standard error, the clock and what is listened
/// at are outside it.
pub trait Machine {
    /// A list that is read from its beginning.
    type List: Source + Drop;

    /// The calls by which a copy is put in the place of a file.
    type Calls: Replacing + Drop;

    /// What is read from on a connection.
    type Reader: Source + Drop;

    /// What is written to on it.
    type Writer: Sink + Drop;

    /// Standard input.
    type Input: Source + Drop;

    /// The file of a list that is kept.
    type File: Lasting + Placed + Drop;

    // What was done, where that is known.
    ghost done: { Self → Option (List (Effect Self.File)) };

    // What is heard at an address where something is asked.
    ghost heard: { List ℕ → ℕ → List ℕ → ℕ → List ℕ → Type 0 };

    /// Its memory.
    fn alloc(&self) -> Global;

    /// Opens the database of a room's file. Explains why if it can't be opened.
    fn open(&mut self, file: RoomFile<'_>) -> Result<Connection<FileStore<DiskFile>>, Failure>
        ensures outside { IfOk result (λ conn. conn.in_transaction ≡ false) }
        ensures connected { IfOk result IsConnected }
        ensures fault { IfErr result IsUnfound }
        ensures done { Does (effect.opened (place_of file.entry) (known tables_of result) ∷ [])
            (done self.old) (done self.new) };

    /// What came of work in the database of a room's file, once the file is closed with all that was
    /// committed in it. Explains why if it can't be closed, or the work could not be done.
    fn close<T: Drop>(
        &mut self,
        file: RoomFile<'_>,
        worked: TaskResult<T, FileStore<DiskFile>>,
    ) -> Result<T, Failure>
        ensures closes { Closes worked result }
        ensures done { Does (effect.closed (place_of file.entry) ∷ []) (done self.old)
            (done self.new) };

    /// The bytes of a text file. Explains why where it can't be read.
    fn read_text(&mut self, path: &str) -> Result<Vec<u8>, Failure>
        ensures fault { IfErr result IsUnread }
        ensures done { Does (effect.read path.now result ∷ []) (done self.old) (done self.new) };

    /// Opens the file of a journal at a path, and reports that a record was cut off at its end.
    fn open_journal(&mut self, path: &str) -> Result<OpenedList<Self::File>, Failure>
        ensures fault { IfErr result IsUnlisted }
        ensures done { Does (effect.listed path.now result ∷ []) (done self.old) (done self.new) };

    /// Opens the list at a path, to be read. Explains why where it can't be.
    fn open_list(&mut self, path: &str) -> Result<Self::List, Failure>
        ensures sound { IfOk result (λ list. Self.List.has_failed list ≡ false) }
        ensures fault { IfErr result IsUnread }
        ensures done { Does (effect.found path.now (known Self.List.left result) ∷ [])
            (done self.old) (done self.new) };

    /// Leaves the list at a path: whether a read of it failed is known from here on, and whether
    /// it ended well. Where more rows stand in it than are counted, a read failed.
    fn leave_list(&mut self, path: &str, list: &ListSource<Self::List>)
        ensures { Does (effect.left path.now
            (Self.List.has_failed list.now.reader || list.now.passed == most_rows)
            (ends_well list.now.cursor.mode) ∷ []) (done self.old) (done self.new) };

    /// Gives the calls by which a copy is put in the place of a file: none of them is made yet.
    fn calls(&mut self) -> Self::Calls
        ensures begun { Self.Calls.done result ≡ option_map (λ _. []) (done self.new) }
        ensures same { done self.new ≡ done self.old };

    /// Takes those calls back: what they did is done.
    fn release(&mut self, calls: Self::Calls)
        ensures { (steps : List Step)
            → Does steps (option_map (λ _. []) (done self.old)) (Self.Calls.done calls)
            → Does (map effect.replaced steps) (done self.old) (done self.new) };

    /// Fills a buffer with random bytes. Explains why where there are none.
    fn fill_random(&mut self, bytes: &mut [u8]) -> Result<(), Failure>
        ensures fault { IfErr result (λ fault. fault ≡ failure.Storage) }
        ensures done { Does (effect.drawn (known (λ _. bytes.new) result) ∷ [])
            (done self.old) (done self.new) };

    /// Gives standard input, to be read from its beginning.
    fn input(&mut self) -> Self::Input
        ensures sound { Self.Input.has_failed result ≡ false }
        ensures unread { Self.Input.has_ended result ≡ false }
        ensures done { Does (effect.taken (Self.Input.left result) ∷ []) (done self.old)
            (done self.new) };

    /// Whether standard output is a terminal.
    fn has_terminal(&mut self) -> bool
        ensures { Does (effect.asked result ∷ []) (done self.old) (done self.new) };

    /// The two sides of a connection to an address, on which all that is said ends within a time.
    /// None, with an explanation, where it is not made within that. What is heard on them where
    /// something is asked is heard at the address.
    fn call(&mut self, address: &str, patience: Duration) -> Option<(Self::Reader, Self::Writer)>
        ensures heard { (asked said : List ℕ) (most : ℕ) → IsHeard Self.Reader.left
            Self.Reader.has_failed Self.Writer.held Self.Writer.has_failed result asked most said
            → heard address.now (as_nanos patience) asked most said }
        ensures reader { IfSome result (λ sides. Self.Reader.has_failed sides.0 ≡ false) }
        ensures writer { IfSome result (λ sides. Self.Writer.has_failed sides.1 ≡ false) }
        ensures done { Does (effect.called address.now (as_nanos patience) ∷ []) (done self.old)
            (done self.new) };
}

/// What a command runs on: the system, who explains failures on its standard error, and memory.
#[derive(Clone, Copy)]
pub struct Host<'a> {
    pub rt: &'a HostRuntime,
    pub explainer: Explainer<'a>,
    pub alloc: Global,
}

// No contract can say what was done with the system.
impl<'a> Machine for Host<'a> {
    type List = Wire<File>;

    type Calls = System<'a>;

    type Reader = CallReader<'a>;

    type Writer = CallWriter<'a>;

    type Input = Wire<Stdin>;

    type File = ListOnDisk<'a>;

    ghost done = { λ _. None };

    ghost heard = { λ address nanos asked most said. ⊤ };

    fn alloc(&self) -> Global {
        self.alloc
    }

    fn open(&mut self, file: RoomFile<'_>) -> Result<Connection<FileStore<DiskFile>>, Failure> {
        room_files::open(self.rt, self.explainer, file)
    }

    fn close<T: Drop>(
        &mut self,
        file: RoomFile<'_>,
        worked: TaskResult<T, FileStore<DiskFile>>,
    ) -> Result<T, Failure>
        ensures closes { Closes worked result }
    {
        room_files::close(self.explainer, file, worked)
    }

    fn read_text(&mut self, path: &str) -> Result<Vec<u8>, Failure> {
        match fs::read(self.rt, path) {
            Ok(text) => Ok(text),
            Err(error) => Err(self.unread(path, &error)),
        }
    }

    fn open_journal(&mut self, path: &str) -> Result<OpenedList<ListOnDisk<'a>>, Failure> {
        let mut err = self.rt.stderr();
        journal_files::open_journal(self.rt, self.explainer, self.alloc, path, &mut err)
    }

    fn open_list(&mut self, path: &str) -> Result<Wire<File>, Failure> {
        match File::open(self.rt, path) {
            Ok(file) => Ok(Wire::new(file)),
            Err(error) => Err(self.unread(path, &error)),
        }
    }

    fn leave_list(&mut self, _path: &str, _list: &ListSource<Wire<File>>) {}

    fn calls(&mut self) -> System<'a> {
        System {
            rt: self.rt,
            explainer: self.explainer,
        }
    }

    fn release(&mut self, _calls: System<'a>) {}

    fn fill_random(&mut self, bytes: &mut [u8]) -> Result<(), Failure> {
        if let Err(error) = self.rt.fill_bytes(bytes) {
            self.explainer
                .explain(format_args!("no random bytes: {error}"));
            return Err(Failure::Storage);
        }
        Ok(())
    }

    fn input(&mut self) -> Wire<Stdin> {
        Wire::new(self.rt.stdin())
    }

    fn has_terminal(&mut self) -> bool {
        self.rt.stdout().is_terminal()
    }

    // Beside what each machine ensures: how long both sides wait.
    fn call(
        &mut self,
        address: &str,
        patience: Duration,
    ) -> Option<(CallReader<'a>, CallWriter<'a>)>
        ensures reader { IfSome result (λ sides. sides.0.failed ≡ false) }
        ensures writer { IfSome result (λ sides. sides.1.failed ≡ false) }
        ensures patient { IfSome result (λ sides. (sides.0.idle ≡ patience)
            × (sides.1.patience ≡ patience)) }
    {
        client::call(self.rt, self.rt, self.explainer, address, patience)
    }
}

impl<'a> Host<'a> {
    // What it is that a file can't be read. Explains why, but for lack of memory.
    fn unread(self, path: &str, error: &io::Error) -> Failure
        ensures memory { error_kind error.now ≡ ErrorKind.OutOfMemory → result ≡ failure.Memory }
        ensures input { error_kind error.now ≢ ErrorKind.OutOfMemory → result ≡ failure.Input }
    {
        if error.kind() == ErrorKind::OutOfMemory {
            return Failure::Memory;
        }
        self.explainer.explain(format_args!("{path}: {error}"));
        Failure::Input
    }
}
