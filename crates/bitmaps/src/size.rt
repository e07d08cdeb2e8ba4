// How many bytes a bitmap takes.
ghost use Rattle.std.specs.Prelude.{◌≡◌};
ghost use Rattle.bitmaps.specs.Bitmap.{bytes_for};

// Document 01's ceiling(E / 8).
pub fn bytes_for(rows: usize) -> usize
    ensures { result ≡ bytes_for rows }
{
    rows.div_ceil(8)
}
