ghost use Rattle.std.specs.Prelude.{◌≡◌, vec_len};

// The tasks of a site, and a pass for each, in the order of the tasks.
#[derive(Drop)]
pub(crate) struct TasksWithPasses<T: Drop, P: Drop> {
    pub tasks: Vec<T>,
    pub passes: Vec<P>,
    ghost paired: { vec_len passes ≡ vec_len tasks },
}
