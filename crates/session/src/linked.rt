// A linked session, and its report.
ghost use Rattle.std.specs.Prelude.{◌≡◌, ◌≤◌, length};
ghost use Rattle.std.specs.Option.{option_map};
ghost use Rattle.std.specs.List.{slice_get};
ghost use Rattle.session.specs.Lines.{lines, line_answer, line_buffer, line_bytes};
ghost use Rattle.session.specs.Texts.{line_of};
ghost use Rattle.session.specs.View.{Shows};

use super::line::{Line, render};
use super::reference::row_line;
use super::seen::Seen;
use super::table::Tables;
use super::text::Text;
use elf::refusal::Refusal;
use scope::scope::Scope;
use std::marker::Model;

// A session that is linked; nothing is opened or closed in it. Clauses see it as a `Session`.
#[derive(Drop)]
pub struct Linked<S: Seen> {
    pub(crate) scope: S,
    pub(crate) tables: Tables,
}

impl<S: Seen> Model for Linked<S> {
    ghost use Rattle.session.specs.View.{Session, session_of};

    ghost Value = { Session S };

    ghost view = { λ s. session_of s.scope (S.Seen.objects s.scope) (S.Seen.order s.scope) s.tables };
}

impl<S: Scope> Linked<S> {
    // How many lines the report has.
    pub fn line_count(&self) -> usize
        ensures count { result ≡ length (lines self.now.state.linkage) }
        ensures shown { Shows (S.Scope.objects self.now.scope) (S.Scope.order self.now.scope) self.now }
        ensures started { length self.now.state.linkage.started ≤ 64 }
        ensures bindings { length self.now.state.linkage.bindings ≤ 4096 }
    {
        self.scope.order().len() + self.tables.started.len() + self.tables.bindings.as_slice().len()
    }

    // Line n, from 0: the load order, then the start order, then the bindings.
    fn line_at(&self, n: usize) -> Option<Line>
        ensures line { option_map line_of result ≡ slice_get (lines self.now.state.linkage) n }
        ensures shown { Shows (S.Scope.objects self.now.scope) (S.Scope.order self.now.scope) self.now }
    {
        let loaded = self.scope.order();
        if let Some(object) = loaded.get(n) {
            return Some(Line::Load(*object));
        }
        let start = n - loaded.len();
        if let Some(object) = self.tables.started.get(start) {
            return Some(Line::Init(*object));
        }
        let place = start - self.tables.started.len();
        let row = self.tables.bindings.as_slice().get(place)?;
        Some(row_line(&self.scope, row))
    }

    // Writes line n, from 0, at the front of the buffer; past the last one 0 bytes. 320 bytes suffice.
    pub fn line(&self, n: usize, out: &mut [u8]) -> Result<usize, Refusal>
        ensures answer { result ≡ line_answer self.now.state.linkage n (length out.old) }
        ensures buffer { out.new ≡ line_buffer self.now.state.linkage n out.old }
        ensures fits { length (line_bytes (lines self.now.state.linkage) n) ≤ 320 }
        ensures shown { Shows (S.Scope.objects self.now.scope) (S.Scope.order self.now.scope) self.now }
    {
        let text = match self.line_at(n) {
            Some(line) => render(&line),
            None => Text::new(),
        };
        text.copy_to(out)
    }
}
