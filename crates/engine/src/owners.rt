ghost use Rattle.std.specs.Prelude.{◌≡◌, length, replicate, None, slice_index_or, slice_set};

use model::limits::CELLS;

// Which board owns each cell, if one does.
#[derive(Clone, Copy)]
pub struct Owners {
    of: [Option<u32>; 64],
    ghost cells: { length of ≡ 64 },
}

impl Owners {
    pub(crate) fn new() -> Owners
        ensures { result.of ≡ replicate 64 None }
    {
        Owners { of: [None; 64] }
    }

    pub(crate) fn of(&self, cell: u32) -> Option<u32>
        ensures { result ≡ slice_index_or self.now.of cell None }
    {
        self.of.get(cell as usize).copied().flatten()
    }

    pub(crate) fn put(&mut self, cell: u32, owner: Option<u32>)
        ensures { self.new.of ≡ slice_set self.old.of cell owner }
    {
        // by index and not by `get_mut`, after which a proof knows no element of the table
        if cell < CELLS {
            self.of[cell as usize] = owner;
        }
    }
}
