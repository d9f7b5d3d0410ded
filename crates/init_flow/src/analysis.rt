ghost use Rattle.std.specs.Prelude.{◌≡◌, ◌<◌, ℕ, List, Bool, length};
ghost use Rattle.cfg_graph.specs.declared.graph.Body.{Body as GraphBody};
ghost use Rattle.bit_rows.specs.Words.{union};
ghost use Rattle.init_flow.specs.Ways.{way_count};

use bit_rows::BitRow;
use cfg_graph::Body;

/// What a forward analysis knows at a point of a body: a row of bits. It starts with a row, each way out of a block
/// changes it, and where ways meet the rows are united.
pub trait Analysis {
    /// How many bits a row has, the row at the start of a body, what a way out of a block makes of a row, and for
    /// which bodies.
    ghost width: { Self → ℕ };

    ghost first: { Self → List Bool };

    ghost passed: { Self → GraphBody → (block way : ℕ) → List Bool → List Bool };

    ghost IsFor: { Self → GraphBody → Type 0 };

    /// How many bits a row has.
    fn bits(&self) -> u32
        ensures { result ≡ width self.now };

    /// Makes a row the one at the start of a body.
    fn start(&self, row: &mut BitRow)
        requires { length row.old ≡ width self.now }
        ensures { row.new ≡ first self.now };

    /// Makes the row at the start of a block the one at the end of a way out of it. The only way has the number 0; of
    /// two, 0 is the way to `no` or to the next block, and 1 that to `yes` or of a panic.
    fn pass(&self, body: &Body, block: u32, edge: u32, row: &mut BitRow)
        requires is_for { IsFor self.now body.now }
        requires exists { edge < way_count body.now block }
        requires row { length row.old ≡ width self.now }
        ensures { row.new ≡ passed self.now body.now block edge row.old };

    /// The rows keep their length, and what a way makes of a union is the union of what it makes of the two.
    ghost first_width: { (a : Self) → length (first a) ≡ width a };

    ghost keeps: { (a : Self) (body : GraphBody) (block way : ℕ) (row : List Bool) → length row ≡ width a → length (passed a body block way row) ≡ width a };

    ghost distributes: { (a : Self) (body : GraphBody) (block way : ℕ) (one other : List Bool) → length one ≡ width a → length other ≡ width a → passed a body block way (union one other) ≡ union (passed a body block way one) (passed a body block way other) };
}
