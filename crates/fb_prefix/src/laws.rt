//! What a prefix tells of its datom: the contracts are the laws, and there is nothing to run.
ghost use Rattle.std.specs.Prelude.{◌≡◌, true};
ghost use Rattle.std.specs.declared.cmp.Ordering.TheVariants.{Less};
ghost use Rattle.fb_values.specs.declared.facts.Datom.{Datom as ModelDatom};
ghost use Rattle.fb_values.specs.declared.indexes.Order.{Order as ModelOrder};
ghost use Rattle.fb_values.specs.Orders.{key_cmp};
ghost use Rattle.fb_prefix.specs.Prefixes.{prefix_in, is_lesser};

/// Equal prefixes tell nothing.
pub fn a_lesser_prefix_is_of_a_lesser_datom()
    ensures { (order : ModelOrder) → (x y : ModelDatom)
        → is_lesser (prefix_in order x) (prefix_in order y) ≡ true
        → key_cmp order x y ≡ Less }
{}
