//! A sink that gathers what is put, and hands it on in long pieces.
ghost use Rattle.std.specs.Prelude.{◌≡◌, ◌<◌, ◌≤◌, [], drop, length, OnOk, OnErr, vec_len};
ghost use Rattle.std.specs.Io.KnownBytes.{Keeps};
ghost use Rattle.raw_io.specs.Causes.{Rose, HasCause};
ghost use Rattle.raw_shell.specs.Gathering.{gathering};
ghost use Rattle.raw_shell.specs.Gathered.{gathered, behind, told};

use raw_io::{Failed, Sink};
use std::alloc::Global;

/// From so many bytes on they are handed on.
const ENOUGH: usize = 65_536;

/// A sink that gathers pieces for the one behind it, until they are many. It tells the bytes of the one behind it, where that
/// tells them, and then those that are gathered. A call fails where one of the sink behind it fails; what that has not taken
/// stays gathered.
///
/// Where there is no memory to gather a piece it is handed on at once.
#[derive(Drop)]
pub struct Gathered<K> {
    /// The sink behind it. What is put on this goes before all that is gathered.
    pub behind: K,
    bytes: Vec<u8>,
}

// Takes so many bytes away from the front.
fn remove_front(bytes: &mut Vec<u8>, count: usize)
    requires { count ≤ vec_len bytes.old }
    ensures { bytes.new.items ≡ drop count bytes.old.items }
{
    let rest = bytes.len() - count;
    bytes.rotate_left(count);
    bytes.truncate(rest);
}

impl<K: Sink> Gathered<K> {
    /// A sink that has gathered nothing.
    pub fn new(alloc: Global, sink: K) -> Gathered<K>
        ensures behind { behind K.sight result ≡ K.sight sink }
        ensures none { gathered result ≡ [] }
    {
        Gathered {
            behind: sink,
            bytes: Vec::new(alloc),
        }
    }

    // Hands on a front of what is gathered.
    fn hand_on(&mut self) -> Result<(), Failed>
        requires some { 0 < length (gathered self.old) }
        ensures keeps { Keeps (told K.sight self.old).bytes (told K.sight self.new).bytes }
        ensures fewer { OnOk result (length (gathered self.new) < length (gathered self.old)) }
        ensures same { OnErr result (gathered self.new ≡ gathered self.old) }
        ensures cause { HasCause (behind K.sight self.old).faults (behind K.sight self.new).faults result }
    {
        let count = self.behind.put(&self.bytes)?;
        remove_front(&mut self.bytes, count);
        Ok(())
    }

    /// Hands on all that is gathered. What the sink behind it has not taken where one of its calls fails stays gathered.
    pub fn flush(&mut self) -> Result<(), Failed>
        ensures all { OnOk result (gathered self.new ≡ []) }
        ensures rest { OnErr result (0 < length (gathered self.new)) }
        ensures keeps { Keeps (told K.sight self.old).bytes (told K.sight self.new).bytes }
        ensures cause { HasCause (behind K.sight self.old).faults (behind K.sight self.new).faults result }
    {
        while !self.bytes.is_empty() {
            self.hand_on()?;
        }
        Ok(())
    }
}

impl<K: Sink> Sink for Gathered<K> {
    ghost sight = { λ s. gathering (K.sight s.behind) s.bytes.items };

    fn put(&mut self, bytes: &[u8]) -> Result<usize, Failed> {
        if self.bytes.len() >= ENOUGH {
            self.flush()?;
        }
        if self.bytes.extend_from_slice(bytes).is_ok() {
            return Ok(bytes.len());
        }
        self.flush()?;
        self.behind.put(bytes)
    }
}
