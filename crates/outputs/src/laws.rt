// The law that words and input decide what is written.
ghost use Rattle.outputs.specs.MeshFiles.{OneMade};

/// States that what is asked for and a soup have one list of files and one line, and does nothing. So the
/// words and the bytes of the input decide every byte that is written.
pub fn one_output_law()
    ensures { OneMade }
{}
