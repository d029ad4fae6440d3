//! The numbers of all constants, as the standard has them: the check refuses any other.

use crate::errors::*;
use crate::kinds::*;
use crate::values::*;

// `ofp_header`, section 5.1: the version.
const _: () = prove!(OFP_VERSION == 1);

// `ofp_type`, section 5.1.
const _: () = prove!(
    OFPT_HELLO == 0
        && OFPT_ERROR == 1
        && OFPT_ECHO_REQUEST == 2
        && OFPT_ECHO_REPLY == 3
        && OFPT_VENDOR == 4
        && OFPT_FEATURES_REQUEST == 5
        && OFPT_FEATURES_REPLY == 6
        && OFPT_GET_CONFIG_REQUEST == 7
        && OFPT_GET_CONFIG_REPLY == 8
        && OFPT_SET_CONFIG == 9
        && OFPT_PACKET_IN == 10
        && OFPT_FLOW_REMOVED == 11
        && OFPT_PORT_STATUS == 12
        && OFPT_PACKET_OUT == 13
        && OFPT_FLOW_MOD == 14
        && OFPT_PORT_MOD == 15
        && OFPT_STATS_REQUEST == 16
        && OFPT_STATS_REPLY == 17
        && OFPT_BARRIER_REQUEST == 18
        && OFPT_BARRIER_REPLY == 19
        && OFPT_QUEUE_GET_CONFIG_REQUEST == 20
        && OFPT_QUEUE_GET_CONFIG_REPLY == 21
);

// `ofp_action_type`, section 5.2.4.
const _: () = prove!(
    OFPAT_OUTPUT == 0
        && OFPAT_SET_VLAN_VID == 1
        && OFPAT_SET_VLAN_PCP == 2
        && OFPAT_STRIP_VLAN == 3
        && OFPAT_SET_DL_SRC == 4
        && OFPAT_SET_DL_DST == 5
        && OFPAT_SET_NW_SRC == 6
        && OFPAT_SET_NW_DST == 7
        && OFPAT_SET_NW_TOS == 8
        && OFPAT_SET_TP_SRC == 9
        && OFPAT_SET_TP_DST == 10
        && OFPAT_ENQUEUE == 11
        && OFPAT_VENDOR == 0xffff
);

// `ofp_flow_mod_command`, section 5.3.3.
const _: () = prove!(
    OFPFC_ADD == 0
        && OFPFC_MODIFY == 1
        && OFPFC_MODIFY_STRICT == 2
        && OFPFC_DELETE == 3
        && OFPFC_DELETE_STRICT == 4
);

// `ofp_flow_mod_flags`, section 5.3.3.
const _: () = prove!(OFPFF_SEND_FLOW_REM == 1 && OFPFF_CHECK_OVERLAP == 2 && OFPFF_EMERG == 4);

// `ofp_packet_in_reason`, section 5.4.1.
const _: () = prove!(OFPR_NO_MATCH == 0 && OFPR_ACTION == 1);

// `ofp_flow_removed_reason`, section 5.4.2.
const _: () = prove!(OFPRR_IDLE_TIMEOUT == 0 && OFPRR_HARD_TIMEOUT == 1 && OFPRR_DELETE == 2);

// `ofp_port_reason`, section 5.4.3.
const _: () = prove!(OFPPR_ADD == 0 && OFPPR_DELETE == 1 && OFPPR_MODIFY == 2);

// `ofp_port_state`, section 5.2.1.
const _: () = prove!(OFPPS_LINK_DOWN == 1);

// No buffer.
const _: () = prove!(OFP_NO_BUFFER == 0xffff_ffff);

// `ofp_error_type`, section 5.4.4.
const _: () = prove!(
    OFPET_HELLO_FAILED == 0
        && OFPET_BAD_REQUEST == 1
        && OFPET_BAD_ACTION == 2
        && OFPET_FLOW_MOD_FAILED == 3
        && OFPET_PORT_MOD_FAILED == 4
        && OFPET_QUEUE_OP_FAILED == 5
);

// `ofp_bad_request_code`, section 5.4.4.
const _: () = prove!(
    OFPBRC_BAD_VERSION == 0
        && OFPBRC_BAD_TYPE == 1
        && OFPBRC_BAD_STAT == 2
        && OFPBRC_BAD_VENDOR == 3
        && OFPBRC_BAD_SUBTYPE == 4
        && OFPBRC_EPERM == 5
        && OFPBRC_BAD_LEN == 6
        && OFPBRC_BUFFER_EMPTY == 7
        && OFPBRC_BUFFER_UNKNOWN == 8
);

// `ofp_bad_action_code`, section 5.4.4.
const _: () = prove!(
    OFPBAC_BAD_TYPE == 0
        && OFPBAC_BAD_LEN == 1
        && OFPBAC_BAD_VENDOR == 2
        && OFPBAC_BAD_VENDOR_TYPE == 3
        && OFPBAC_BAD_OUT_PORT == 4
        && OFPBAC_BAD_ARGUMENT == 5
        && OFPBAC_EPERM == 6
        && OFPBAC_TOO_MANY == 7
        && OFPBAC_BAD_QUEUE == 8
);

// `ofp_flow_mod_failed_code`, section 5.4.4.
const _: () = prove!(
    OFPFMFC_ALL_TABLES_FULL == 0
        && OFPFMFC_OVERLAP == 1
        && OFPFMFC_EPERM == 2
        && OFPFMFC_BAD_EMERG_TIMEOUT == 3
        && OFPFMFC_BAD_COMMAND == 4
        && OFPFMFC_UNSUPPORTED == 5
);
