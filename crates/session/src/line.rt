// The lines of a report, and the line of a refusal.
ghost use Rattle.std.specs.Prelude.{◌≡◌, ◌+◌, ◌≤◌, ◌++◌, length, take};
ghost use Rattle.session.specs.Lines.{symbol_fields, render as render_of, refusal_line};
ghost use Rattle.session.specs.Tabled.{blank, spare_behind};
ghost use Rattle.session.specs.Texts.{name_of, line_of};

use super::name::Name;
use super::text::Text;
use elf::refusal::Refusal;

// A symbol that an object refers to.
#[derive(Clone, Copy)]
pub struct Symbol {
    pub object: u16,
    pub number: u16,
    pub name: Name,
}

// A line of a report; a bound symbol has the object and the symbol that it took.
#[derive(Clone, Copy)]
pub enum Line {
    Load(u16),
    Init(u16),
    Bind(Symbol, u16, u16),
    Over(Symbol, u16, u16),
    None(Symbol),
}

impl Symbol {
    // Adds the symbol's fields to a text: two numbers of 5 digits at most, and the name, each behind a space.
    #[tactic(auto, using(crate::proofs::Spares::drop_twice))]
    fn write(&self, text: &mut Text)
        requires { length text.old.bytes + 268 ≤ 320 }
        ensures value { text.new.bytes ≡ text.old.bytes ++ symbol_fields self.now.object self.now.number (name_of self.now.name) }
        ensures spare { text.new.spare ≡ spare_behind text.old text.new.bytes }
        ensures length { length text.new.bytes ≤ length text.old.bytes + 268 }
    {
        text.number(self.object);
        text.number(self.number);
        text.field(self.name.bytes());
    }
}

impl Line {
    // The word that a line begins with; each has 4 letters.
    fn word(&self) -> &[u8]
        ensures { result.now ≡ take 4 (render_of (line_of self.now)) }
    {
        match self {
            Line::Load(_) => b"load",
            Line::Init(_) => b"init",
            Line::Bind(..) => b"bind",
            Line::Over(..) => b"over",
            Line::None(_) => b"none",
        }
    }
}

// The bytes of a line.
#[tactic(auto, using(crate::proofs::Reports::three_written))]
pub fn render(line: &Line) -> Text
    ensures bytes { result.bytes ≡ render_of (line_of line.now) }
    ensures spare { result.spare ≡ spare_behind blank result.bytes }
{
    let mut text = Text::new();
    text.push(line.word());
    match line {
        Line::Load(object) | Line::Init(object) => text.number(*object),
        Line::Bind(symbol, object, number) | Line::Over(symbol, object, number) => {
            symbol.write(&mut text);
            text.number(*object);
            text.number(*number);
        }
        Line::None(symbol) => symbol.write(&mut text),
    }
    text.push(b"\n");
    text
}

// The line of a refusal: its number, object and place.
pub fn refusal_line(refusal: &Refusal) -> Text
    ensures bytes { result.bytes ≡ refusal_line refusal.now }
    ensures spare { result.spare ≡ spare_behind blank result.bytes }
{
    let (number, object, place) = refusal.row();
    let mut text = Text::new();
    text.push(b"refused");
    text.number(number);
    text.number(object);
    text.number(place);
    text.push(b"\n");
    text
}
