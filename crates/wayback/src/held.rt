// A plan's buffer, with how far it is written.

ghost use Rattle.std.specs.Prelude.{◌≤◌, length};

// The buffer that a plan is written into: only its first `total` places may be written, and the next action's place is `place`.
#[derive(Drop)]
pub struct PlanBuffer<'a> {
    pub plan: &'a mut [u8],
    pub total: usize,
    pub place: usize,
    pub ghost fits: { total ≤ length plan.now },
}
