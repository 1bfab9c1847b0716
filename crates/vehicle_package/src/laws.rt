//! The laws of vehicle packages.
ghost use Rattle.std.specs.Prelude.{◌≡◌, ◌↔◌, Ok};
ghost use Rattle.ucm_base.specs.Parts.{Bytes};
ghost use Rattle.package_reader.specs.Spelling.{AreBytes};
ghost use Rattle.vehicle_package.specs.Reading.{vehicle_of};
ghost use Rattle.vehicle_package.specs.Spelling.{IsVehicle};
ghost use Rattle.vehicle_package.specs.declared.vehicle.Vehicle.{Vehicle as AnyVehicle};

/// Bytes are the vehicle package of at most one vehicle, which is what reading gives. It does nothing; its clauses are
/// the laws.
pub fn a_vehicle_is_one()
    ensures one { (bytes : Bytes) (v w : AnyVehicle) → IsVehicle bytes v → IsVehicle bytes w
        → v ≡ w }
    ensures read { (bytes : Bytes) (v : AnyVehicle) → AreBytes bytes
        → ((vehicle_of bytes ≡ Ok v) ↔ IsVehicle bytes v) }
{}
