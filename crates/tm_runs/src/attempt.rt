//! The result of attempting an instruction on the fast path.
ghost use Rattle.std.specs.Prelude.{◌≡◌};
ghost use Rattle.tm_runs.specs.Attempts.{attempt_of, captured_of, free_attempt_of, written_of};

use tm_output::TargetFailed;

/// The result of an instruction that is done at once if possible.
#[derive(Clone, Copy, PartialEq, Eq)]
pub enum Attempt {
    /// It was charged and done, and the run continues.
    Done,
    /// It is free and was done, and the run continues.
    DoneFree,
    /// Nothing was done.
    Left,
    /// The writer failed.
    WriterFailed,
    /// The innermost capture ran out of memory.
    NoMemory,
}

impl Attempt {
    /// `Done` if `is_done`, else `Left`.
    #[inline(always)]
    pub fn of(is_done: bool) -> Attempt
        ensures { result ≡ attempt_of is_done }
    {
        if is_done {
            Attempt::Done
        } else {
            Attempt::Left
        }
    }

    /// `DoneFree` if `is_done`, else `Left`.
    #[inline(always)]
    pub fn free(is_done: bool) -> Attempt
        ensures { result ≡ free_attempt_of is_done }
    {
        if is_done {
            Attempt::DoneFree
        } else {
            Attempt::Left
        }
    }

    /// `Done`, or `WriterFailed` if the writer failed.
    #[inline(always)]
    pub fn written(answer: Result<(), TargetFailed>) -> Attempt
        ensures { result ≡ written_of answer }
    {
        match answer {
            Ok(()) => Attempt::Done,
            Err(_failed) => Attempt::WriterFailed,
        }
    }

    /// `Done`, or `NoMemory` if a capture ran out of memory.
    #[inline(always)]
    pub fn captured(answer: Result<(), TargetFailed>) -> Attempt
        ensures { result ≡ captured_of answer }
    {
        match answer {
            Ok(()) => Attempt::Done,
            Err(_failed) => Attempt::NoMemory,
        }
    }
}
