// The tag read from a file and written to one. A file is written as a draft beside its place and renamed, so that what
// stands there is always whole: the old file or the new one. A path of 4,096 bytes may be the beginning of a longer
// one, cut off by its buffer: no file is begun under it here, and the system opens none. A path that is no text in
// UTF-8 names no file either, since std takes only text.
use crate::tags::hold;
use file_status::{Status, status_at};
use groat_answers::{Kept, put_ok};
use groat_lines::{Bench, Problem, Tag, first};
use std::fmt::InlineText;
use std::fs::{File, OpenOptions, Permissions};
use std::io::{self, Read, Write};
use std::os::unix::fs::{PermissionsExt, fchown};
use std::random::RandomSource;
use std::str::from_utf8;

// The longest path under which a file is begun, and the longest name of a draft: 14 bytes after its directory.
const LONGEST_PATH: usize = 4095;

const LONGEST_NAME: usize = 4109;

// A file's kind is in these bits of its mode, and here is that of a regular file.
const KIND: u32 = 0o170000;

const REGULAR: u32 = 0o100000;

// A path as the text that std asks for.
fn text_of(path: &[u8]) -> Result<&str, Problem> {
    from_utf8(path).map_err(|_| Problem::CannotOpen)
}

// As many bytes as a file has or the buffer holds, from its start on. It stops at the first read that fails.
// A `while`, since it counts what each read brings, and no index.
fn read_full(file: &mut File, all: &mut Tag) -> usize {
    let mut done = 0;
    while done < 131200 {
        match file.read(&mut all[done..]) {
            Ok(0) | Err(_) => break,
            Ok(n) => done += n,
        }
    }
    done
}

// The bytes of a file, put into a lent buffer. A read of one byte more says whether they are all.
fn read_all<'a>(file: &mut File, all: &'a mut Tag) -> Result<&'a [u8], Problem> {
    let n = read_full(file, all);
    match file.read(&mut [0; 1]) {
        Ok(0) => Ok(first(all, n)),
        Ok(_) if n == 131200 => Err(Problem::TooManyBytes),
        Ok(_) | Err(_) => Err(Problem::CannotOpen),
    }
}

fn open(host: HostRuntime, path: &[u8]) -> Result<File, Problem> {
    File::open(&host, text_of(path)?).map_err(|_| Problem::CannotOpen)
}

// Keeps the bytes of a file. The buffer is this function's first local: where a `?` stands before a large one, it is
// cleared twice.
fn load_file(bench: &mut Bench, kept: &mut Kept, mut file: File) -> Result<(), Problem> {
    let mut spare = [0; 131200];
    let bytes = read_all(&mut file, &mut spare)?;
    hold(bench, kept, bytes);
    Ok(())
}

// `load PATH`.
pub fn load(bench: &mut Bench, kept: &mut Kept) -> Result<(), Problem> {
    let mut room = [0; 4096];
    let path = bench.last_path(&mut room)?;
    let file = open(bench.host(), path)?;
    load_file(bench, kept, file)
}

// A path up to its last slash.
fn directory(path: &str) -> &str {
    match path.rfind('/') {
        Some(slash) => &path[..=slash],
        None => "",
    }
}

// Whether a file may take the place of what stands there: nothing, or a regular file. A link is neither, whatever it
// leads to: a rename would replace the link.
fn gives_way(before: Option<Status>) -> bool {
    before.is_none_or(|status| status.mode & KIND == REGULAR)
}

// Four random bytes as a number. Where none are to be had it is 0: two drafts of one name are no danger, since a file
// is only made where its name is free.
fn random(host: HostRuntime) -> u32 {
    let mut four = [0; 4];
    let _ = host.fill_bytes(&mut four);
    u32::from_be_bytes(four)
}

// The name of a draft of its own beside a path.
fn name_beside(host: HostRuntime, path: &str) -> InlineText<LONGEST_NAME> {
    let directory = directory(path);
    let random = random(host);
    InlineText::of(format_args!("{directory}groat-{random:08x}"))
}

// Gives a new file the mode of the one that it is to replace, where there is one. It gets that file's owner and group
// too, each where the system allows it, so that a file which root saves stays its owner's.
fn take_after(file: &File, before: Option<Status>) -> io::Result<()> {
    let Some(status) = before else {
        return Ok(());
    };
    if fchown(file, Some(status.owner), Some(status.group)).is_err() {
        let _ = fchown(file, None, Some(status.group));
    }
    file.set_permissions(Permissions::from_mode(status.mode & 0o777))
}

fn remove(host: HostRuntime, name: &str) {
    let _ = std::fs::remove_file(&host, name);
}

// Makes a file under a name that is free. It is made as any new file is, so that its mode follows the umask, and gets
// the mode of the file before it while it is empty, so that nobody reads in it what that file was closed to.
fn create(host: HostRuntime, name: &str, before: Option<Status>) -> Result<File, Problem> {
    let file = OpenOptions::new()
        .write(true)
        .create_new(true)
        .open(&host, name)
        .map_err(|_| Problem::CannotOpen)?;
    if take_after(&file, before).is_err() {
        remove(host, name);
        return Err(Problem::CannotOpen);
    }
    Ok(file)
}

// Writes a file and sees it onto the disk, and gives how many bytes it has. It is closed after that: whether the system
// found fault with the closing, std does not say.
fn store<F: FnOnce(&mut File) -> io::Result<usize>>(mut file: File, write: F) -> io::Result<usize>
    requires { F.IsAlwaysCallable write }
{
    let n = write(&mut file)?;
    file.sync_all()?;
    Ok(n)
}

// Writes a file and puts it in its place once it is whole.
fn place<F: FnOnce(&mut File) -> io::Result<usize>>(
    host: HostRuntime,
    draft: File,
    name: &str,
    path: &str,
    write: F,
) -> io::Result<usize>
    requires { F.IsAlwaysCallable write }
{
    let n = store(draft, write)?;
    std::fs::rename(&host, name, path)?;
    Ok(n)
}

// Has a call write a file, which is to stand at a path, and give how many bytes it has.
fn replace<F: FnOnce(&mut File) -> io::Result<usize>>(
    host: HostRuntime,
    path: &str,
    write: F,
) -> Result<usize, Problem>
    requires { F.IsAlwaysCallable write }
{
    let before = status_at(&host, path.as_bytes());
    if path.len() > LONGEST_PATH {
        return Err(Problem::CannotOpen);
    }
    if !gives_way(before) {
        return Err(Problem::NotARegularFile);
    }
    let name = name_beside(host, path);
    let draft = create(host, name.as_str(), before)?;
    let placed = place(host, draft, name.as_str(), path, write);
    if placed.is_err() {
        remove(host, name.as_str());
    }
    placed.map_err(|_| Problem::CannotWrite)
}

// Answers a request for a file at a path, which a call is to write.
pub fn write_file<F: FnOnce(&mut File) -> io::Result<usize>>(
    bench: &mut Bench,
    path: &[u8],
    write: F,
) -> Result<(), Problem>
    requires { F.IsAlwaysCallable write }
{
    let n = replace(bench.host(), text_of(path)?, write)?;
    put_ok(bench, n);
    Ok(())
}

// `save PATH`.
pub fn save(bench: &mut Bench, tag: &[u8]) -> Result<(), Problem> {
    let mut room = [0; 4096];
    let path = bench.last_path(&mut room)?;
    write_file(bench, path, |file| {
        file.write_all(tag)?;
        Ok(tag.len())
    })
}
