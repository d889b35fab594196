// A lent buffer that texts are put into one after the other.
ghost use Rattle.std.specs.Prelude.{◌≤◌, length};

// A lent buffer, and how many bytes of it are written from its front on. Whatever stands behind them is as
// the buffer was lent.
#[derive(Drop)]
pub struct Sheet<'a> {
    pub out: &'a mut [u8],
    pub end: usize,

    ghost within: { end ≤ length out.now },
}
