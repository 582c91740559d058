// What a session holds besides its scope, in fixed tables.
ghost use Rattle.std.specs.Prelude.{◌≡◌, ◌<◌, ◌≤◌, [], ◌∷◌, ◌++◌, length, None};

use arrayvec::ArrayVec;
use std::marker::Model;

// Objects of a catalogue, which has at most 64.
pub type Objects = ArrayVec<u16, 64>;

// One reference, by its object and its place there, and the object and symbol that it took.
#[derive(Clone, Copy, Default)]
pub struct Row {
    pub object: u16,
    pub place: u16,
    pub taken: Option<(u16, u16)>,
}

// The bindings recorded, of which clauses see the list; the first `used` rows count.
#[derive(Drop)]
pub struct Rows {
    pub rows: [Row; 4096],
    pub used: usize,
}

impl Model for Rows {
    ghost use Rattle.std.specs.Prelude.{List, ◌≤◌, take};
    ghost use Rattle.session.specs.declared.table.Row.{Row};

    ghost Value = { List Row };

    ghost view = { λ t. take t.used t.rows };

    ghost invariant = { λ t. t.used ≤ 4096 };
}

impl Rows {
    pub fn new() -> Rows
        ensures { result ≡ [] }
    {
        Rows {
            rows: [Row::default(); 4096],
            used: 0,
        }
    }

    // The bindings recorded.
    pub fn as_slice(&self) -> &[Row]
        ensures value { result.now ≡ self.now }
        ensures length { length result.now ≤ 4096 }
    {
        &self.rows[..self.used]
    }

    // Records one binding more.
    pub fn push(&mut self, row: Row)
        requires { length self.old < 4096 }
        ensures { self.new ≡ self.old ++ (row ∷ []) }
    {
        self.rows[self.used] = row;
        self.used += 1;
    }
}

// The root once a try at linking was granted, the preloads, the start order and the bindings.
#[derive(Drop)]
pub struct Tables {
    pub root: Option<u16>,
    pub preloads: ArrayVec<u16, 4>,
    pub started: Objects,
    pub bindings: Rows,
}

impl Tables {
    pub fn new() -> Tables
        ensures root { result.root ≡ None }
        ensures preloads { result.preloads.items ≡ [] }
        ensures started { result.started.items ≡ [] }
        ensures bindings { result.bindings ≡ [] }
    {
        Tables {
            root: None,
            preloads: ArrayVec::new(),
            started: ArrayVec::new(),
            bindings: Rows::new(),
        }
    }
}
