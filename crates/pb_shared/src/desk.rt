//! What a lock holds: the book, and what threads have to know of one another.

ghost use Rattle.std.specs.Prelude.{◌<◌};

use crate::book::Book;
use crate::brand::CodeBrand;

/// What a mean stretch makes where stretches are long, times 16, and where they are short again.
const LONG: u32 = 16 * 1024;

const SHORT: u32 = 16 * 512;

/// A book, how many threads wait, whether a thread makes turns for all, and how many picks a stretch has
/// made of late. They are in other lines of memory than the word of the lock, which threads read while they
/// wait for it.
#[derive(Drop)]
pub(crate) struct Desk<'v, C: CodeBrand> {
    gap: [u64; 7],
    pub(crate) waiting: u64,
    pub(crate) driven: bool,
    /// Whether turns may be made while stretches are short, and whether they are.
    may_turn: bool,
    are_short: bool,
    /// Sixteen times the mean of what stretches made, in which each counts a sixteenth less than the next.
    lately: u32,
    pub(crate) book: Book<'v, C>,
}

impl<'v, C: CodeBrand> Desk<'v, C> {
    /// Puts a book on a desk. Stretches count as short until they are seen to be long.
    pub(crate) fn new(book: Book<'v, C>, may_turn: bool) -> Desk<'v, C> {
        Desk {
            gap: [0; 7],
            waiting: 0,
            driven: false,
            may_turn,
            are_short: true,
            lately: 0,
            book,
        }
    }

    /// Notes how many picks a stretch has made.
    #[inline(always)]
    pub(crate) fn note(&mut self, made: u32) {
        let lately = (self.lately - self.lately / 16).saturating_add(made);
        self.lately = lately;
        if lately >= LONG {
            self.are_short = false;
        } else if lately < SHORT {
            self.are_short = true;
        }
    }

    /// Makes so many turns of the book, as long as stretches are short. Returns whether there may be more to
    /// make.
    pub(crate) fn make_turns(&mut self, turns: u32, quantum: u32) -> bool
        requires { 0 < quantum }
    {
        for _ in 0..turns {
            if !self.may_turn || !self.are_short {
                return false;
            }
            match self.book.turn(quantum) {
                Ok(Some(made)) => self.note(made),
                Ok(None) => return false,
                Err(_) => return false,
            }
        }
        true
    }

    /// Returns the book.
    pub(crate) fn into_book(self) -> Book<'v, C> {
        let Desk {
            gap: _,
            waiting: _,
            driven: _,
            may_turn: _,
            are_short: _,
            lately: _,
            book,
        } = self;
        book
    }
}
