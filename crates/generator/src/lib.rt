// The generator of paper 01: xorshift32, made from a seed and stepped.
// A value of the type is the number last given, which is also the number kept.
#![tactic(auto)]

ghost use Rattle.std.specs.Prelude.{◌≡◌};
ghost use Rattle.definitions.specs.Generator.{stepped};

#[derive(Clone, Copy)]
pub struct Generator {
    pub value: u32,
}

impl Generator {
    // The shifts of a step, in their order: left, right, left.
    const FIRST: u32 = 13;

    const SECOND: u32 = 17;

    const THIRD: u32 = 5;

    pub fn new(seed: u32) -> Generator
        ensures { result.value ≡ seed }
    {
        Generator { value: seed }
    }

    pub fn step(self) -> Generator
        ensures { result.value ≡ stepped self.value }
    {
        let v = self.value;
        let a = v ^ (v << Generator::FIRST);
        let b = a ^ (a >> Generator::SECOND);
        Generator {
            value: b ^ (b << Generator::THIRD),
        }
    }
}
