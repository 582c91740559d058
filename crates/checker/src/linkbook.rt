// What `linkbook` prints of a book: the report of linking it at object 0, or one refusal line.
ghost use Rattle.std.specs.Prelude.{◌≡◌, IfOk, Ok, vec_items};
ghost use Rattle.catalogue.specs.Reading.{Reads};
ghost use Rattle.session.specs.Lines.{lines};
ghost use Rattle.checker.specs.Linkbook.{linkbook as linkbook_of, book_report, report};

use book::whole::Book;
use catalogue::fault::Fault;
use elf::refusal::Refusal;
use scope::order::LoadOrder;
use scope::scope::Scope;
use session::line::refusal_line;
use session::linked::Linked;
use session::setup::Setup;
use std::alloc::{AllocError, Global};

// The most bytes of a book that `linkbook` takes.
const MOST: usize = 65536;

// The lines of a linked session's report, one behind the other.
fn report<S: Scope>(alloc: Global, session: &Linked<S>) -> Result<Vec<u8>, Fault>
    ensures { Reads vec_items result (Ok (report (lines session.now.state.linkage))) }
{
    let mut text = Vec::new(alloc);
    let mut line = [0; 320];
    for n in 0..session.line_count() {
        let length = session.line(n, &mut line)?;
        text.extend_from_slice(&line[..length])?;
    }
    Ok(text)
}

// The report of a book linked at object 0, or the refusal.
fn report_book(alloc: Global, text: &[u8]) -> Result<Vec<u8>, Fault>
    ensures { Reads vec_items result (book_report text.now) }
{
    if text.len() > MOST {
        return Err(Refusal::BookTooLong.into());
    }
    let book = Book::read(alloc, text)?;
    let mut setup = Setup::new(LoadOrder::new(book));
    setup.try_link(0)?;
    report(alloc, &setup.link())
}

// What `linkbook` prints, or want of memory.
pub fn linkbook(alloc: Global, text: &[u8]) -> Result<Vec<u8>, AllocError>
    ensures { IfOk result (λ v. v.items ≡ linkbook_of text.now) }
{
    match report_book(alloc, text) {
        Ok(report) => Ok(report),
        Err(Fault::Refused(refusal)) => Vec::from_slice(alloc, refusal_line(&refusal).bytes()),
        Err(Fault::Memory(error)) => Err(error),
    }
}
