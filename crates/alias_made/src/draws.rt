//! Numbers that are drawn one after the other.

ghost use Rattle.std.specs.Prelude.{◌≡◌, ◌<◌, ◌≤◌};
ghost use Rattle.alias_made.specs.Draws.{next_state, drawn, block_drawn};

/// A linear congruential generator. The same seed draws the same numbers.
#[derive(Drop)]
pub struct Draws {
    pub state: u64,
}

/// What is drawn for a block.
#[derive(Clone, Copy)]
pub struct BlockDraw {
    /// What the block makes of an object, of four kinds.
    pub kind: u32,
    /// The block whose object that is: the block itself, or one before it.
    pub source: u32,
}

const MULTIPLIER: u64 = 6_364_136_223_846_793_005;

const INCREMENT: u64 = 1_442_695_040_888_963_407;

impl Draws {
    /// The next number, below `bound`.
    pub fn draw(&mut self, bound: u32) -> u32
        requires { 0 < bound }
        ensures state { self.new.state ≡ next_state self.old.state }
        ensures number { result ≡ drawn self.new.state bound }
        ensures below { result < bound }
    {
        self.state = self.state.wrapping_mul(MULTIPLIER).wrapping_add(INCREMENT);
        ((self.state >> 33) % u64::from(bound)) as u32
    }
    /// The next two numbers, as a block takes them.
    pub fn draw_block(&mut self, block: u32) -> BlockDraw
        requires { block < 1000 }
        ensures state { self.new.state ≡ next_state (next_state self.old.state) }
        ensures drawn { result ≡ block_drawn self.old.state block }
        ensures earlier { result.source ≤ block }
    {
        let kind = self.draw(4);
        let source = self.draw(block + 1);
        BlockDraw { kind, source }
    }
}
