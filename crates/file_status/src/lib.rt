// What the system knows of a file: its mode, owner and group, for a program that is to replace it.
#![tactic(auto)]

ghost use Rattle.file_status.specs.Paths.{Ended};

use std::ffi::CStr;
use std::fs::symlink_metadata;
use std::os::unix::fs::MetadataExt;
use std::rt::Files;

// The system takes a path of at most one byte less, with a 0 after it.
const PATH_MAX: usize = 4096;

const LAST: usize = PATH_MAX - 1;

// A file's mode, owner and group.
#[derive(Clone, Copy)]
pub struct Status {
    pub mode: u32,
    pub owner: u32,
    pub group: u32,
}

// Of a link it tells of the link itself, which is what a rename would replace.
fn status_of_text(files: &impl Files, path: &str) -> Option<Status> {
    let known = symlink_metadata(files, path).ok()?;
    Some(Status {
        mode: known.mode(),
        owner: known.uid(),
        group: known.gid(),
    })
}

// The path goes up to the 0 that ends it. One that is no text in UTF-8 names no file, since std takes only text.
fn status_of(files: &impl Files, path: &[u8; PATH_MAX]) -> Option<Status>
    requires { Ended path.now }
{
    let Ok(name) = CStr::from_bytes_until_nul(path) else {
        unreachable!()
    };
    let text = name.to_str().ok()?;
    status_of_text(files, text)
}

// As much of path as leaves room for a 0, and then zeros. The edit not_ended is a slip of the last 0, so it is written.
fn ended(path: &[u8]) -> [u8; PATH_MAX]
    ensures { Ended result }
{
    let mut text = [0u8; PATH_MAX];
    let n = path.len().min(LAST);
    text[..n].copy_from_slice(&path[..n]);
    text[LAST] = 0;
    text
}

// What stands at a path, or None where nothing does. One that the system cannot be handed whole, since it is too long
// or has a 0 in it, names no file, and cut short it would name another.
pub fn status_at(files: &impl Files, path: &[u8]) -> Option<Status> {
    if path.len() > LAST || path.contains(&0) {
        return None;
    }
    status_of(files, &ended(path))
}
