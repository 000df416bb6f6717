// Clear, and the four reading calls: 1 and 21 as the verdict has them.
ghost use Rattle.std.specs.Prelude.{◌≡◌, List, ℕ, eqb, Ok, Err};
ghost use Rattle.rules.specs.Tables.{atlas, outcome};
ghost use Rattle.rules.specs.Left.{left_by};
ghost use Rattle.rules.specs.Grow.{cleared, free_space};
ghost use Rattle.rules.specs.Listed.{judged};
ghost use Rattle.grow.specs.Needs.{CanFree};

use rules::{Head, Refusal};

pub fn clear(verdict: Result<u32, Refusal>, head: Head) -> Result<Head, Refusal>
    ensures { (shelves buckets : List ℕ) →
        left_by head shelves buckets result
        ≡ judged (λ q. outcome (Err q) (atlas head shelves buckets)) (λ n. outcome (Ok tt) (cleared (atlas head shelves buckets))) verdict }
{
    verdict.map(|_| grow::cleared_head(head))
}

pub fn size(verdict: Result<u32, Refusal>, head: Head) -> Result<(u16, u16), Refusal>
    ensures { result ≡ judged Err (λ n. Ok (head.width, head.height)) verdict }
{
    verdict.map(|_| (head.width, head.height))
}

pub fn is_empty(verdict: Result<u32, Refusal>, head: Head) -> Result<bool, Refusal>
    ensures { result ≡ judged Err (λ n. Ok (eqb head.shelf_count 0)) verdict }
{
    verdict.map(|_| head.shelf_count == 0)
}

pub fn allocated_space(verdict: Result<u32, Refusal>, head: Head) -> Result<u32, Refusal>
    ensures { result ≡ judged Err (λ n. Ok head.occupied) verdict }
{
    verdict.map(|_| head.occupied)
}

pub fn free_space(verdict: Result<u32, Refusal>, head: Head) -> Result<u32, Refusal>
    requires { (n : ℕ) → verdict ≡ Ok n → CanFree head }
    ensures { result ≡ judged Err (λ n. Ok (free_space head)) verdict }
{
    verdict.map(|_| grow::free_space(head))
}
