//! Requests: commands as the definition has them, a path and a read or a write there.

use crate::command::{Command, Step, Width};
use sj_document::Document;
use sj_object::KeyText;

/// What is asked of the value at a path. Each variant asks what the command of its name does.
#[derive(Debug, Drop)]
pub enum Read {
    Kind,
    Fits(Width),
    Str,
    Len,
    Keys,
    Has(String),
    Encode,
    EncodePp,
}

/// How the value at a path is changed. Each variant changes it as the command of its name does, by
/// values whose texts are `T`.
#[derive(Debug, Drop)]
pub enum Write<T: KeyText> {
    Insert(T, Document<T>),
    Remove(String),
    Push(Document<T>),
    Pop,
    Put(Document<T>),
}

/// What a document is asked: a read or a write at a path, or what is no command.
#[derive(Debug, Drop)]
pub enum Request {
    Read(Vec<Step>, Read),
    Write(Vec<Step>, Write<String>),
    Bad,
}

/// The parts of a command.
impl From<Command> for Request {
    ghost use Rattle.std.specs.Prelude.{◌≡◌};
    ghost use Rattle.sj_commands.specs.Meant.{command_meant, request_meant};

    ghost from_gives = { λ command request. request_meant request ≡ command_meant command };

    fn from(command: Command) -> Request {
        match command {
            Command::Kind(path) => Request::Read(path, Read::Kind),
            Command::Fits(path, width) => Request::Read(path, Read::Fits(width)),
            Command::Str(path) => Request::Read(path, Read::Str),
            Command::Len(path) => Request::Read(path, Read::Len),
            Command::Keys(path) => Request::Read(path, Read::Keys),
            Command::Has(path, key) => Request::Read(path, Read::Has(key)),
            Command::Encode(path) => Request::Read(path, Read::Encode),
            Command::EncodePp(path) => Request::Read(path, Read::EncodePp),
            Command::Bad => Request::Bad,
            Command::Insert(path, key, value) => Request::Write(path, Write::Insert(key, value)),
            Command::Remove(path, key) => Request::Write(path, Write::Remove(key)),
            Command::Push(path, value) => Request::Write(path, Write::Push(value)),
            Command::Pop(path) => Request::Write(path, Write::Pop),
            Command::Put(path, value) => Request::Write(path, Write::Put(value)),
        }
    }
}

/// The command of these parts.
impl From<Request> for Command {
    ghost use Rattle.std.specs.Prelude.{◌≡◌};
    ghost use Rattle.sj_commands.specs.Meant.{command_meant, request_meant};

    ghost from_gives = { λ request command. command_meant command ≡ request_meant request };

    fn from(request: Request) -> Command {
        match request {
            Request::Read(path, read) => match read {
                Read::Kind => Command::Kind(path),
                Read::Fits(width) => Command::Fits(path, width),
                Read::Str => Command::Str(path),
                Read::Len => Command::Len(path),
                Read::Keys => Command::Keys(path),
                Read::Has(key) => Command::Has(path, key),
                Read::Encode => Command::Encode(path),
                Read::EncodePp => Command::EncodePp(path),
            },
            Request::Write(path, write) => match write {
                Write::Insert(key, value) => Command::Insert(path, key, value),
                Write::Remove(key) => Command::Remove(path, key),
                Write::Push(value) => Command::Push(path, value),
                Write::Pop => Command::Pop(path),
                Write::Put(value) => Command::Put(path, value),
            },
            Request::Bad => Command::Bad,
        }
    }
}
