// Certificates.
use sqlite_items::Boxed;

/// Why a face lies in the envelope: an input triangle that all three corners are near to, or four
/// certificates for the pieces that the midpoints of the edges cut the face into.
#[derive(Debug, Drop)]
pub enum Cert {
    Leaf(u32),
    Split(Boxed<[Cert; 4]>),
}
