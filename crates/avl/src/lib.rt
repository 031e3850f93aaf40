// The widths, in bytes, of the fields that differ between the codecs, and whether there are variable values.
#![tactic(auto)]

ghost use Rattle.avl.specs.Narrow.{Narrow};

#[derive(Clone, Copy)]
pub struct Widths {
    pub event: usize,
    pub generation: usize,
    pub count: usize,
    pub id: usize,
    pub variable: bool,
}

// A width set as the code takes it: whoever builds one proves that it is narrow. The definitions and theorems are over any.
#[derive(Clone, Copy)]
pub struct NarrowWidths {
    pub widths: Widths,
    pub ghost narrow: { Narrow widths },
}

// What an accepted data field is answered with: its codec and the number of its records.
#[derive(Clone, Copy)]
pub struct DataResult {
    pub codec: u8,
    pub count: u8,
}
