// Memory that a caller lends.
ghost use Rattle.std.specs.Prelude.{◌≡◌, length, replicate};

// Every element becomes this one. By an index, so that an edit that begins at another one is refused for what it means:
// with `fill_with` it was refused for its form.
pub fn clear<T: Copy>(memory: &mut [T], x: T)
    ensures { memory.new ≡ replicate (length memory.old) x }
{
    for i in 0..memory.len() {
        memory[i] = x;
    }
}
