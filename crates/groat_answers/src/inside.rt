// What the program keeps: a table, a log, a list of floats and the bytes of a tag. Each stands at the front of a buffer
// of its own, whose other places are lent to calls that may fill them and whose answer says whether they count.
ghost use Rattle.std.specs.Prelude.{◌≡◌, length, take, drop, IfOk, OnOk, OnErr};
ghost use Rattle.std.specs.Fn.{FnOnceReturnsAtMut};
ghost use Rattle.std.specs.List.{AllZip};
ghost use Rattle.groat_answers.specs.Filling.{Fills, uncounted};

use groat_lines::{Codes, Tag, first};
use nudge_log::inside::PLACES;
use table::Refusal;

// Puts what each item of a list stands for into a buffer, as far as either goes.
pub fn hold<S: Copy, T: Copy, F: Fn(S) -> T>(list: &[S], room: &mut [T], meaning: F)
    requires { F.IsAlwaysCallable meaning }
    ensures held { AllZip (F.post meaning) (take (length room.old) list.now) (take (length list.now) room.new) }
    ensures rest { drop (length list.now) room.new ≡ drop (length list.now) room.old }
{
    // by an index: after a zip with `iter_mut`, a proof knows nothing of what the buffer holds
    for (i, &item) in list.iter().enumerate() {
        if i >= room.len() {
            break;
        }
        room[i] = meaning(item);
    }
}

// Has a call fill the first n items of a buffer, or all.
fn fill_first<T, F: FnOnce(&mut [T]) -> Result<(), Refusal>>(
    room: &mut [T],
    n: usize,
    fill: F,
) -> Result<(), Refusal>
    requires { F.IsAlwaysCallable fill }
    ensures { Fills (FnOnceReturnsAtMut F.FnOnce fill) result n room.old room.new }
{
    let n = n.min(room.len());
    fill(&mut room[..n])
}

// The first n items of a buffer, or all, to be changed.
fn first_mut<T>(items: &mut [T], n: usize) -> &mut [T]
    ensures { result.now ≡ take n items.old }
{
    let n = n.min(items.len());
    &mut items[..n]
}

// A buffer, and how many of its places are in use. An ArrayVec lends no place beyond those that are in use.
#[derive(Drop)]
pub struct Places<A> {
    room: A,
    used: usize,
}

impl<T: Copy, const N: usize> Places<[T; N]> {
    // None in use.
    pub fn new(room: [T; N]) -> Places<[T; N]>
        ensures room { result.room ≡ room }
        ensures none { result.used ≡ 0 }
    {
        Places { room, used: 0 }
    }

    pub fn items(&self) -> &[T]
        ensures { result.now ≡ take self.now.used self.now.room }
    {
        first(&self.room[..], self.used)
    }

    // Those in use, to be changed.
    pub fn items_mut(&mut self) -> &mut [T]
        ensures { result.now ≡ take self.old.used self.old.room }
    {
        let n = self.used;
        let room = &mut self.room;
        first_mut(&mut room[..], n)
    }

    // With what each item of a list stands for, as many as there is room for.
    pub fn hold<S: Copy, F: Fn(S) -> T>(&mut self, list: &[S], meaning: F)
        requires { F.IsAlwaysCallable meaning }
        ensures used { self.new.used ≡ length list.now }
        ensures held { AllZip (F.post meaning) (take N list.now) (take (length list.now) self.new.room) }
        ensures rest { drop (length list.now) self.new.room ≡ drop (length list.now) self.old.room }
    {
        hold(list, &mut self.room[..], meaning);
        self.used = list.len();
    }

    // Has a call fill the first n places, or all. They are in use from here on if it is granted, and the answer says
    // how many.
    pub fn make<F: FnOnce(&mut [T]) -> Result<(), Refusal>>(
        &mut self,
        n: usize,
        fill: F,
    ) -> Result<usize, Refusal>
        requires { F.IsAlwaysCallable fill }
        ensures granted { OnOk result (self.new.used ≡ n) }
        ensures answer { IfOk result (λ m. m ≡ n) }
        ensures refused { OnErr result (self.new.used ≡ self.old.used) }
        // what the call leaves in the places lent to it stays, also if it refuses
        ensures filled { Fills (FnOnceReturnsAtMut F.FnOnce fill) (uncounted result) n self.old.room self.new.room }
    {
        fill_first(&mut self.room[..], n, fill)?;
        self.used = n;
        Ok(n)
    }
}

// Records of nudges, and how many stand by its own count: a damaged log's may be any number.
#[derive(Clone, Copy)]
pub struct Log {
    pub words: [u64; PLACES],
    pub standing: usize,
}

#[derive(Drop)]
pub struct Kept {
    // room for the codes of a list, while a line is answered
    pub codes: Codes,
    pub table: Places<[u16; 65537]>,
    pub log: Log,
    pub floats: Places<[f32; 65537]>,
    pub tag: Places<Tag>,
}

impl Kept {
    // Nothing yet.
    pub fn new() -> Kept
        ensures table { result.table.used ≡ 0 }
        ensures log { result.log.standing ≡ 0 }
        ensures floats { result.floats.used ≡ 0 }
        ensures tag { result.tag.used ≡ 0 }
    {
        Kept {
            codes: [0; 65537],
            table: Places::new([0; 65537]),
            log: Log {
                words: [0; PLACES],
                standing: 0,
            },
            floats: Places::new([0.0; 65537]),
            tag: Places::new([0; 131200]),
        }
    }
}
