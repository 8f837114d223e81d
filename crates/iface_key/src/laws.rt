ghost use Rattle.iface_key.specs.Laws.{HasOneKey, StandsForOneView};

/// Each view has one key.
pub fn one_key()
    ensures { HasOneKey }
{}

/// Each key stands for at most one view.
pub fn one_view()
    ensures { StandsForOneView }
{}
