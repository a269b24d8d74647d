// The laws: a case has one finding, and what is sound or was written is good.
ghost use Rattle.cert_check.specs.Laws.{OneFinding, SoundIsGood};
ghost use Rattle.cert_check.specs.Written.{WrittenIsSound};

/// States that a case has at most one finding, and does nothing.
pub fn one_finding_law()
    ensures { OneFinding }
{}

/// States that the finding is Good where the files are sound, and does nothing.
pub fn sound_law()
    ensures { SoundIsGood }
{}

/// States that what is written of a mesh that tiles its box is sound, and does nothing: its file, and a
/// report with a covering for each tracked face and the lines of the triangles.
pub fn written_law()
    ensures { WrittenIsSound }
{}
