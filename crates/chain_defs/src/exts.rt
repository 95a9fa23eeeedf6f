ghost use Rattle.chain_defs.specs.Fits.{BytesDetermineRows, BytesDetermineExts};

/// States that of rows that fit their bytes, with their out-points, no two have the same bytes, and neither have two
/// exts of such rows. It does nothing.
pub fn bytes_of_exts()
    ensures bytes_determine_rows { BytesDetermineRows }
    ensures bytes_determine_exts { BytesDetermineExts }
{}
