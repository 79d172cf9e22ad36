//! The commands of `sftpd client`.

ghost use Rattle.std.specs.Prelude.{◌<◌, ◌^◌, IfSome};
ghost use Rattle.sf_words.specs.Words.{paths_len};

/// A command of the client, with its paths in bytes.
#[derive(Clone, Copy, Debug, PartialEq, Eq)]
pub enum ClientCommand<'a> {
    Stat(&'a [u8]),
    List(&'a [u8]),
    Get(&'a [u8]),
    Put(&'a [u8]),
    Mkdir(&'a [u8]),
    Rmdir(&'a [u8]),
    Remove(&'a [u8]),
    Rename(&'a [u8], &'a [u8]),
    PosixRename(&'a [u8], &'a [u8]),
    Link(&'a [u8], &'a [u8]),
}

/// An exclusive bound on the total length of a command's paths, in bytes.
const PATHS_END: usize = 1 << 31;

impl<'a> ClientCommand<'a> {
    /// Parses a command. It returns `None` if the name is unknown, the number of paths is wrong, or
    /// the paths have 2^31 bytes or more in total.
    pub fn from_words(name: &str, paths: &[&'a str]) -> Option<ClientCommand<'a>>
        ensures { IfSome result (λ command. paths_len command < 2 ^ 31) }
    {
        match paths {
            [path] => ClientCommand::of_one_path(name, path.as_bytes()),
            [old, new] => ClientCommand::of_two_paths(name, old.as_bytes(), new.as_bytes()),
            _ => None,
        }
    }

    fn of_one_path(name: &str, path: &'a [u8]) -> Option<ClientCommand<'a>>
        ensures { IfSome result (λ command. paths_len command < 2 ^ 31) }
    {
        if path.len() >= PATHS_END {
            return None;
        }
        match name {
            "stat" => Some(ClientCommand::Stat(path)),
            "list" => Some(ClientCommand::List(path)),
            "get" => Some(ClientCommand::Get(path)),
            "put" => Some(ClientCommand::Put(path)),
            "mkdir" => Some(ClientCommand::Mkdir(path)),
            "rmdir" => Some(ClientCommand::Rmdir(path)),
            "remove" => Some(ClientCommand::Remove(path)),
            _ => None,
        }
    }

    fn of_two_paths(name: &str, old: &'a [u8], new: &'a [u8]) -> Option<ClientCommand<'a>>
        ensures { IfSome result (λ command. paths_len command < 2 ^ 31) }
    {
        if old.len() >= PATHS_END || new.len() >= PATHS_END - old.len() {
            return None;
        }
        match name {
            "rename" => Some(ClientCommand::Rename(old, new)),
            "posix-rename" => Some(ClientCommand::PosixRename(old, new)),
            "hardlink" => Some(ClientCommand::Link(old, new)),
            _ => None,
        }
    }
}
