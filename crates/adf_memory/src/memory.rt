// Sinks in the caller's memory.

ghost use Rattle.std.specs.Prelude.{◌≡◌, ◌≤◌, ◌∷◌, Some, false, length, min, take, true};

use adf_runs::{Failed, Sink};

/// The caller's memory, filled from the front. It has failed once there is no room left for a byte.
#[derive(Drop)]
pub struct CallerMemory<'a> {
    room: &'a mut [u8],
    taken: usize,
    full: bool,
    ghost within: { taken ≤ length room.now },
    ghost filled: { full ≡ true → taken ≡ length room.now },
}

impl<'a> CallerMemory<'a> {
    pub fn new(room: &'a mut [u8]) -> CallerMemory<'a>
        ensures same { result.room.ghost_name ≡ room.entry.ghost_name }
        ensures room { result.room.now ≡ room.old }
        ensures taken { result.taken ≡ 0 }
        ensures full { result.full ≡ false }
    {
        CallerMemory {
            room,
            taken: 0,
            full: false,
        }
    }

    /// How many bytes are taken, at most `most`.
    pub fn taken(&self, most: usize) -> usize
        ensures { result ≡ min self.now.taken most }
    {
        self.taken.min(most)
    }

    pub fn is_full(&self) -> bool
        ensures { result ≡ self.now.full }
    {
        self.full
    }
}

impl Sink for CallerMemory<'_> {
    // Before the bytes stands the name of the room, so that whoever appends to them keeps to this room.
    ghost held = { λ r. Some (r.room.ghost_name ∷ take r.taken r.room.now) };

    ghost has_failed = { λ r. r.full };

    fn write(&mut self, bytes: &[u8]) -> Result<usize, Failed> {
        let count = bytes.len().min(self.room.len() - self.taken);
        self.room[self.taken..self.taken + count].copy_from_slice(&bytes[..count]);
        self.taken += count;
        if count == 0 && bytes.len() > 0 {
            self.full = true;
        }
        Ok(count)
    }

    fn failed(&self) -> bool {
        self.full
    }
}

/// How many bytes a run has read and written.
#[repr(C)]
#[derive(Clone, Copy)]
pub struct Moved {
    /// Bytes read from the input.
    pub input: usize,
    /// Bytes written to the front of the output.
    pub output: usize,
    /// Bytes written to the front of the errors.
    pub errors: usize,
    /// Whether the output was too small.
    pub output_full: bool,
    /// Whether the room for errors was too small.
    pub errors_full: bool,
}

impl Moved {
    /// The counts of a run that read so many bytes of the input, with the sinks that it wrote to and their sizes.
    pub fn of(
        input: usize,
        output: &CallerMemory<'_>,
        most_output: usize,
        errors: &CallerMemory<'_>,
        most_errors: usize,
    ) -> Moved
        ensures input { result.input ≡ input }
        ensures output { result.output ≡ min output.now.taken most_output }
        ensures errors { result.errors ≡ min errors.now.taken most_errors }
        ensures output_full { result.output_full ≡ output.now.full }
        ensures errors_full { result.errors_full ≡ errors.now.full }
    {
        Moved {
            input,
            output: output.taken(most_output),
            errors: errors.taken(most_errors),
            output_full: output.is_full(),
            errors_full: errors.is_full(),
        }
    }
}
