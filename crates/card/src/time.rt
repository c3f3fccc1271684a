// Ticks from one stamp to another. Stamps have 32 bits and go over the top.
ghost use Rattle.std.specs.Prelude.{◌≡◌};
ghost use Rattle.card.specs.Time.{ticks_of};

// The elapsed ticks of cell 61: 65,535 if more.
pub fn ticks(opening: u32, closing: u32) -> u16
    ensures { result ≡ ticks_of opening closing }
{
    closing.wrapping_sub(opening).min(65535) as u16
}
