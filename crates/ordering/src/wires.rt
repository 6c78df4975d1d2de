// The wires of a network of gates, in arrays that are lent together.
ghost use Rattle.std.specs.Prelude.{◌≡◌};
ghost use Rattle.ordering.specs.Wires.{backwards};

// `count` wires: wire i leads from gate sources[i] to gate targets[i] and takes delays[i] ticks.
// The slices may be longer, and what asks for no delays takes any slice of them.
#[derive(Clone, Copy)]
pub struct Wires<'a> {
    pub count: usize,
    pub sources: &'a [u32],
    pub targets: &'a [u32],
    pub delays: &'a [u32],
}

impl Wires<'_> {
    // The same wires, each led the other way.
    pub fn reversed(self) -> Self
        ensures { result ≡ backwards self.entry }
    {
        Wires {
            sources: self.targets,
            targets: self.sources,
            ..self
        }
    }
}
