//! A vehicle that is read and printed again; what bytes are refused by stands in the scenarios.
use std::test::Fail;
use vehicle_package::{read_vehicle, seal_vehicle};

/// The removal of `core 1.0.0`.
const CORE: &[u8] =
    b"SWP1\x00\x00\x00\x8a{\"action\":\"remove\",\"name\":\"core\",\"needs\":[],\"sha256\":\"e3b0c4429\
8fc1c149afbf4c8996fb92427ae41e4649b934ca495991b7852b855\",\"version\":\"1.0.0\"}\x00\x00\x00\x00\
\xd4Y&\xeb=J\xe7D\x01\x0e\xd3\xfd\xb9+\xb3!3\x8c\xdb\x98Df\x1b\xeb,a\xd1\xc2\xa5\x97= ";

/// The vehicle that brings it to node 1, made by another program.
const VEHICLE: &[u8] =
    b"VHP1\x00\x00\x00\"{\"steps\":[{\"node\":1,\"package\":0}]}\x00\x01\x00\x00\x00\xb6SWP1\x00\x00\
\x00\x8a{\"action\":\"remove\",\"name\":\"core\",\"needs\":[],\"sha256\":\"e3b0c44298fc1c149afbf\
4c8996fb92427ae41e4649b934ca495991b7852b855\",\"version\":\"1.0.0\"}\x00\x00\x00\x00\xd4Y&\xeb=J\
\xe7D\x01\x0e\xd3\xfd\xb9+\xb3!3\x8c\xdb\x98Df\x1b\xeb,a\xd1\xc2\xa5\x97= 0&\x17\xbd9\xd7\xec\
\xf9B\x1f\xaa\xa2\xae\xad\xe1\xd6\xfa\xfb\x89\xa7\x87\xbcS0\xc1\x85\x08F,\x7f\xb4U";

#[test]
fn a_vehicle_is_read_and_sealed_again(rt: HostRuntime) -> Result<(), Fail> {
    let alloc = rt.alloc();
    let Ok(vehicle) = read_vehicle(alloc, VEHICLE) else {
        return Err(Fail::from("not read"));
    };
    let [step] = vehicle.steps.as_slice() else {
        return Err(Fail::from("not one step"));
    };
    assert_eq!(rt; (step.node.number(), step.package), (1, 0));
    let [part] = vehicle.parts_of(*step) else {
        return Err(Fail::from("not one part"));
    };
    assert!(rt; part.manifest.name.as_bytes() == b"core".as_slice());
    let [core] = vehicle.packages.as_slice() else {
        return Err(Fail::from("not one package"));
    };
    assert!(rt; core.as_slice() == CORE);
    let packages = vec![in alloc; core.as_slice()]?;
    let sealed = seal_vehicle(alloc, vehicle.steps.as_slice(), packages.as_slice())?;
    assert!(rt; sealed.as_slice() == VEHICLE);
    assert!(rt; read_vehicle(alloc, CORE).is_err());
    Ok(())
}
