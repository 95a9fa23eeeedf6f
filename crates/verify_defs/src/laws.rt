// The laws of the first fault.
ghost use Rattle.verify_defs.specs.Laws.{NoneOfASoundLog, SoundByParts};

/// States that nothing is wrong of LOG exactly where it is a log whose blocks have joined, and that an image is sound exactly
/// where nothing is wrong of LOG and both areas are sound over its blocks. It does nothing.
pub fn log_laws()
    ensures none_of_a_sound_log { NoneOfASoundLog }
    ensures sound_by_parts { SoundByParts }
{}
