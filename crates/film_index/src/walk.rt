ghost use Rattle.std.specs.Prelude.{◌≡◌, ◌+◌, ◌<◌, ◌≤◌, ◌^◌, IfSome, length, None};
ghost use Rattle.model_line.specs.Decode.{frames_behind, frames_given, previous_after};
ghost use Rattle.model_line.specs.Origins.{overlap_len, frame_numbers, size_of, kind_of};
ghost use Rattle.film_index.specs.Bounds.{most_overlap, FitSizes, FitsSize};

use model_line::RowKind;

/// How many frames two neighbouring blocks of these sizes give: a quarter of each (Vorbis I,
/// section 4.3.8).
pub fn overlap_len(first: u32, second: u32) -> u32
    requires first { FitsSize first }
    requires second { FitsSize second }
    ensures count { result ≡ overlap_len first second }
    ensures most { result ≤ most_overlap }
{
    first / 4 + second / 4
}

/// The sizes of a link's blocks.
#[derive(Clone, Copy)]
pub struct Sizes {
    pub short: u32,
    pub long: u32,
}

impl Sizes {
    /// The size of a short block, or of a long one.
    pub fn of(self, long: bool) -> u32
        ensures size { result ≡ size_of self.short self.long long }
        ensures fits { FitSizes self → FitsSize result }
    {
        if long { self.long } else { self.short }
    }
}

/// How far a walk over the entries of a link has come.
#[derive(Clone, Copy)]
pub struct Walk {
    /// The size of the block before, if there is one.
    pub previous: Option<u32>,
    /// How many frames the entries gave.
    pub frames: u64,
}

impl Walk {
    /// A walk that begins.
    pub fn start() -> Walk
        ensures previous { result.previous ≡ None }
        ensures frames { result.frames ≡ 0 }
    {
        Walk {
            previous: None,
            frames: 0,
        }
    }

    /// How many frames a block of this size gives.
    #[tactic(auto, using(crate::proofs::Marks::count_laws))]
    pub fn behind(&self, size: u32) -> u32
        requires previous { IfSome self.now.previous FitsSize }
        requires size { FitsSize size }
        ensures count { result ≡ length (frames_behind frame_numbers self.now.previous size) }
        ensures most { result ≤ most_overlap }
    {
        match self.previous {
            Some(previous) => overlap_len(previous, size),
            None => 0,
        }
    }

    /// Passes an entry.
    pub fn pass(&mut self, sizes: Sizes, kind: RowKind)
        requires sizes { FitSizes sizes }
        requires previous { IfSome self.old.previous FitsSize }
        requires room { self.old.frames + most_overlap < 2 ^ 64 }
        ensures frames { self.new.frames ≡ self.old.frames
            + length (frames_given frame_numbers (kind_of sizes.short sizes.long kind)
            self.old.previous) }
        ensures previous { self.new.previous
            ≡ previous_after (kind_of sizes.short sizes.long kind) self.old.previous }
        ensures fits { IfSome self.new.previous FitsSize }
        ensures most { self.new.frames ≤ self.old.frames + most_overlap }
    {
        match kind {
            RowKind::Lost | RowKind::Bad => self.previous = None,
            RowKind::Skip => {}
            RowKind::Block { long } => {
                let size = sizes.of(long);
                self.frames += u64::from(self.behind(size));
                self.previous = Some(size);
            }
        }
    }
}
