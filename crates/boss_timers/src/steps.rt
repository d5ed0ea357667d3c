ghost use Rattle.std.specs.Prelude.{◌≡◌, ◌+◌};

use std::marker::Model;
use std::sync::ledger::{Blank, Book, Ledger, Share};

/// A counter of comparisons that is there for contracts alone: it takes no bytes, and its calls do nothing at run time.
#[derive(Drop)]
pub struct Steps<L: Ledger> {
    book: Book<L>,
    share: Share<L>,
}

impl<L: Ledger> Model for Steps<L> {
    ghost use Rattle.std.specs.Prelude.{ℕ, ◌<◌};

    ghost Value = { ℕ };

    ghost view = { λ s. s.book.total };

    ghost invariant = { λ s. 0 < s.share.parts };
}

impl<L: Ledger> Steps<L> {
    /// No comparison so far. The blank ledger has one part.
    pub fn new(blank: Blank) -> Steps<L>
        requires name { blank.name ≡ L.name }
        requires parts { blank.parts ≡ L.parts }
        requires one { blank.parts ≡ 1 }
        ensures { result ≡ 0 }
    {
        let (book, share) = blank.open::<L>();
        Steps { book, share }
    }

    /// One comparison more.
    pub fn tick(&mut self)
        ensures { self.new ≡ self.old + 1 }
    {
        let Steps { book, share } = self;
        book.add(share, 1);
    }
}
