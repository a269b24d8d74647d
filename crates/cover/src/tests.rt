// Certificates over one triangle and over two.
ghost use Rattle.std.specs.Prelude.{◌≡◌, pos};

use crate::{check, covered, find};
use envelope_tree::Envelope;
use grid::{Point, Tri};
use mesh_types::Cert;
use sqlite_items::Boxed;
use std::test::Fail;

fn point(x: i32, y: i32) -> Point
    ensures { result ≡ record { x = x; y = y; z = pos 0 } }
{
    Point { x, y, z: 0 }
}

#[test]
fn over_two_triangles(rt: HostRuntime) -> Result<(), Fail> {
    let low = Tri([point(0, 0), point(16, 0), point(8, 8)]);
    let high = Tri([point(0, 0), point(8, 8), point(0, 16)]);
    let face = Tri([point(0, 0), point(16, 0), point(0, 16)]);
    let env = Envelope::build(rt.alloc(), &[low, high])?;
    assert!(rt; covered(&env, &face, 6));
    let Some(Cert::Split(parts)) = find(rt.alloc(), &env, &face, 6)? else {
        return Err("no split")?;
    };
    let [a, b, c, d] = parts.get();
    assert!(rt; matches!(a, Cert::Leaf(0)));
    assert!(rt; matches!(b, Cert::Leaf(0)));
    assert!(rt; matches!(c, Cert::Leaf(1)));
    assert!(rt; matches!(d, Cert::Leaf(0)));
    Ok(())
}

#[test]
fn over_one_triangle(rt: HostRuntime) -> Result<(), Fail> {
    let low = Tri([point(0, 0), point(16, 0), point(8, 8)]);
    let face = Tri([point(0, 0), point(16, 0), point(0, 16)]);
    let env = Envelope::build(rt.alloc(), &[low])?;
    assert!(rt; !covered(&env, &face, 1));
    assert!(rt; find(rt.alloc(), &env, &face, 1)?.is_none());
    Ok(())
}

#[test]
fn checked(rt: HostRuntime) -> Result<(), Fail> {
    let low = Tri([point(0, 0), point(16, 0), point(8, 8)]);
    let high = Tri([point(0, 0), point(8, 8), point(0, 16)]);
    let face = Tri([point(0, 0), point(16, 0), point(0, 16)]);
    let leaves = [Cert::Leaf(0), Cert::Leaf(0), Cert::Leaf(1), Cert::Leaf(0)];
    let split = Cert::Split(Boxed::new(rt.alloc(), leaves)?);
    assert!(rt; check(&[low, high], &face, &split, 6));
    assert!(rt; !check(&[low], &face, &split, 6));
    assert!(rt; !check(&[low, high], &face, &Cert::Leaf(0), 6));
    Ok(())
}
