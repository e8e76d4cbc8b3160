//! Laws of what gateways were told.

ghost use Rattle.std.specs.Prelude.{◌≡◌, ◌++◌, ℕ, List};
ghost use Rattle.acq_core.specs.Tables.{Tables};
ghost use Rattle.acq_gateway.specs.declared.gateway.Gateway.{Gateway};
ghost use Rattle.acq_gateway.specs.Telling.{unsent_of};
ghost use Rattle.acq_gateway_stream.specs.Stream.{told_by};
ghost use Rattle.acq_gateways.specs.Following.{IsTold};
ghost use Rattle.acq_rounds.specs.Runs.{Step};

/// What went out to a gateway, and behind it what is still to be written, is what its looks and its
/// lines told it, one behind the other.
pub fn what_went_out_was_told()
    ensures { (t : Tables) (steps : List Step) (went : List ℕ) (gateway : Gateway)
        → (is : IsTold t steps went gateway)
        → went ++ unsent_of gateway ≡ told_by is.did }
{}
