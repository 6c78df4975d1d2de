// Reading gate numbers, and marks of gates.
ghost use Rattle.std.specs.Prelude.{◌≡◌, ℕ, ◌≤◌, ◌<◌, length, get_or};
ghost use Rattle.ordering.specs.Marks.{Marks, Among};

// Element i of `numbers`, as an index.
pub fn at(numbers: &[u32], i: usize) -> usize
    requires { i < length numbers.now }
    ensures { result ≡ get_or numbers.now i 0 }
{
    numbers[i] as usize
}

// Marks the gates among the first m elements of `keys`; for the first n gates whose marks were 0, the marks then tell which of them these are. Public for `network` alone.
pub fn mark_keys(m: usize, keys: &[u32], marks: &mut [u8])
    requires m_in_bounds { m ≤ length keys.now }
    requires to_marks { (i : ℕ) → i < m → get_or keys.now i 0 < length marks.old }
    ensures { (n : ℕ) → ((g : ℕ) → g < n → get_or marks.old g 0 ≡ 0) → Marks (Among keys.now m) n marks.new }
{
    for &key in &keys[..m] {
        marks[key as usize] = 1;
    }
}
