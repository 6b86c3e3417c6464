// Handing arcs on in front of a list.
ghost use Rattle.std.specs.Prelude.{◌≤◌, length};
ghost use Rattle.tracing.specs.Traces.{InFront};

// What stands past them is kept.
pub(crate) fn put_in_front(list: &mut [u32], arcs: &[u32])
    requires { length arcs.now ≤ length list.old }
    ensures { InFront arcs.now list.old list.new }
{
    list[..arcs.len()].copy_from_slice(arcs);
}
