// The laws: what the mesher makes is accepted by the check.
ghost use Rattle.acceptance.specs.Accepted.{AcceptedLaw, FewTrackedLaw, OffTheBoxLaw};
ghost use Rattle.acceptance.specs.InFolder.{FoundGoodLaw};

/// States that no corner of a tracked face of a finished run lies on a side of the box, and does
/// nothing: the triangles lie two steps more than epsilon inside it, and each tracked face lies within
/// epsilon of them.
pub fn off_the_box_law()
    ensures { OffTheBoxLaw }
{}

/// States that a finished run has at most twice as many tracked faces as tetrahedra, and does nothing:
/// each is a face of two.
pub fn few_tracked_law()
    ensures { FewTrackedLaw }
{}

/// States that the mesh file and the report of every finished run keep the rules of their texts and
/// are sound, so that the finding about them is Good, and does nothing.
pub fn accepted_law()
    ensures { AcceptedLaw }
{}

/// States that a check of the files that a finished run wrote, beside an input that gives its soup, reads
/// what was made and finds it Good where no file is too long to be read, and does nothing.
pub fn found_good_law()
    ensures { FoundGoodLaw }
{}
