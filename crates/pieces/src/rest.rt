// What is left of a window: it moves to the front, where the next piece is read behind it.
ghost use Rattle.std.specs.Prelude.{◌≡◌};
ghost use Rattle.lines.specs.Written.{put};
ghost use Rattle.pieces.specs.AsCoded.Rest.{kept_rest};

// The bytes of the window from a place to an end move to its front, where the next piece is read
// behind them. Answers how many they are.
pub fn keep_rest(window: &mut [u8], at: usize, end: usize) -> usize
    ensures { put result window.new
        ≡ kept_rest window.old at end }
{
    if window.len() < end || end <= at {
        return 0;
    }
    window.copy_within(at..end, 0);
    end - at
}
