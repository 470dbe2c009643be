ghost use Rattle.std.specs.Prelude.{◌≡◌, ◌≤◌, map, length, vec_capacity};

use zk_base::push_within;
use zk_model_work::Expiry;

/// The items of these expiries, in place of those before. There has to be room for them.
pub fn tell_items(items: &mut Vec<u32>, expiries: &[Expiry])
    requires { length expiries.now ≤ vec_capacity items.old }
    ensures items { items.new.items ≡ map (λ e. e.item) expiries.now }
    ensures capacity { vec_capacity items.old ≤ vec_capacity items.new }
{
    items.clear();
    for expiry in expiries {
        push_within(items, expiry.item);
    }
}
